ghost use Rattle.std.specs.Prelude.{◌≤◌};

use values::direction::Direction;
use values::extent::Extent;

pub mod at_once;
pub mod scan;

// Some adjoining I/Os of one session: how many, and the sectors that they cover together, at least one for each.
#[derive(Clone, Copy)]
pub struct Head {
    pub count: u8,
    pub direction: Direction,
    pub extent: Extent,
    ghost few: { count ≤ extent.length },
}
