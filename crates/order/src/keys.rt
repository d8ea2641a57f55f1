ghost use Rattle.order.specs.Keys.{mark_before, level_before, distance_before};
ghost use Rattle.std.proofs.Common.{rules};

use super::key::{Key, NamedKey};

// A due mark: an instant in microseconds, or never (none), which is later than every instant, and an order number.
#[derive(Clone, Copy)]
pub struct DueMark {
    pub at: Option<u64>,
    pub number: u64,
}

// A sharing rule's level, with the number of the pool or the name of the session that has it: ordered by the level first.
#[derive(Clone, Copy, PartialEq, Eq, PartialOrd, Ord)]
pub struct Level {
    pub level: u64,
    pub name: u32,
}

// How far a disk arm goes to a run, with the run's place in the order of putting: ordered by the way first.
#[derive(Clone, Copy, PartialEq, Eq, PartialOrd, Ord)]
pub struct Distance {
    pub sectors: u32,
    pub place: usize,
}

// By hand: never is later than every instant, where the order of an Option has none first.
impl Key for DueMark {
    ghost before = { mark_before };

    ghost ranks = { Prim.search rules };

    fn goes_before(&self, other: &DueMark) -> bool {
        match (self.at, other.at) {
            (Some(x), Some(y)) => (x, self.number) < (y, other.number),
            (Some(_), None) => true,
            (None, Some(_)) => false,
            (None, None) => self.number < other.number,
        }
    }
}

impl NamedKey for DueMark {
    ghost name = { λ x. x.number };

    ghost apart = { Prim.search rules };
}

// By the derived order.
impl Key for Level {
    ghost before = { level_before };

    ghost ranks = { Prim.search rules };

    fn goes_before(&self, other: &Level) -> bool {
        self < other
    }
}

impl NamedKey for Level {
    ghost name = { λ x. x.name };

    ghost apart = { Prim.search rules };
}

// The derived order, written out: an elevator asks for it once for each run, and std's way by `partial_cmp` takes longer.
impl Key for Distance {
    ghost before = { distance_before };

    ghost ranks = { Prim.search rules };

    fn goes_before(&self, other: &Distance) -> bool {
        self.sectors < other.sectors || (self.sectors == other.sectors && self.place < other.place)
    }
}

impl NamedKey for Distance {
    ghost name = { λ x. x.place };

    ghost apart = { Prim.search rules };
}
