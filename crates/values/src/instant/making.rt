ghost use Rattle.std.specs.Prelude.{◌≡◌, ◌≤◌, MatchResult};
ghost use Rattle.values.specs.Refusals.{outside_stream};

use super::Instant;
use crate::fault::ValueFault;

impl Instant {
    // The last lawful instant.
    pub const LAST: u64 = 1_099_511_627_775;

    // The instant of so many microseconds; refused exactly where it is past the last one.
    pub fn new(micros: u64) -> Result<Instant, ValueFault>
        ensures { MatchResult result (λ t. t.micros ≡ micros) (λ f. (f ≡ outside_stream) × (micros ≤ 1099511627775 → ⊥)) }
    {
        if micros > Self::LAST {
            return Err(ValueFault::OUTSIDE_STREAM);
        }
        Ok(Instant { micros })
    }
}
