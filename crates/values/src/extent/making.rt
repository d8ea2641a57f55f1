ghost use Rattle.std.specs.Prelude.{◌≡◌, MatchResult};
ghost use Rattle.values.specs.Extents.{Lawful, end_of};
ghost use Rattle.values.specs.Refusals.{outside_stream};

use super::Extent;
use crate::fault::ValueFault;

impl Extent {
    // The last address that an extent may end at.
    pub const LAST: u64 = 4_294_967_295;

    // The extent of so many sectors from an address on; refused exactly where it is not lawful.
    pub fn new(address: u32, length: u8) -> Result<Extent, ValueFault>
        ensures { MatchResult result (λ e. (e.address ≡ address) × (e.length ≡ length)) (λ f. (f ≡ outside_stream) × (Lawful address length → ⊥)) }
    {
        if !(1..=64).contains(&length) || u64::from(address) + u64::from(length) > Self::LAST {
            return Err(ValueFault::OUTSIDE_STREAM);
        }
        Ok(Extent { address, length })
    }

    // The address behind the last sector.
    pub fn end(self) -> u32
        ensures { result ≡ end_of self }
    {
        self.address + u32::from(self.length)
    }
}
