ghost use Rattle.values.specs.Extents.{Lawful};
ghost use Rattle.values.specs.Ios.{Says, IsDirection};
ghost use Rattle.values.specs.Refusals.{outside_stream};
ghost use Rattle.std.specs.Prelude.{◌≡◌, MatchResult};

use super::direction::Direction;
use super::extent::Extent;
use super::fault::ValueFault;
use line::Owned;

// An I/O of a session.
#[derive(Clone, Copy)]
pub struct Io {
    pub session: u32,
    pub direction: Direction,
    pub extent: Extent,
}

// Some I/Os of a session that lie side by side, sent to the device as one:
// those from the arrival number `first` on, `count` of them, and the sectors that they cover together.
#[derive(Clone, Copy)]
pub struct Run {
    pub session: u32,
    pub first: u32,
    pub count: u8,
    pub direction: Direction,
    pub extent: Extent,
}

impl Io {
    // The I/O that four numbers stand for; refused exactly where the direction is none or the extent not lawful.
    // (The direction is a number here: whoever has one that stands for none is told so.)
    pub fn new(session: u32, direction: u8, address: u32, length: u8) -> Result<Io, ValueFault>
        ensures { MatchResult result (λ io. Says session direction address length io) (λ f. (f ≡ outside_stream) × (IsDirection direction × Lawful address length → ⊥)) }
    {
        let direction = Direction::try_from(direction)?;
        let extent = Extent::new(address, length)?;
        Ok(Io {
            session,
            direction,
            extent,
        })
    }
}

// In a line, an I/O belongs to its session.
impl Owned for Io {
    ghost owner = { λ io. io.session };

    fn owned_by(&self) -> u32 {
        self.session
    }
}
