ghost use Rattle.std.specs.Prelude.{◌+◌, ◌≤◌, length};
ghost use Rattle.device.specs.Runs.{runs_of};

use crate::runs::Runs;

pub mod moves;

// Room for up to 32 runs, of which a device uses its depth:
// those at work in the order of putting, and those done in the order of being done.
#[derive(Drop)]
pub struct Bay {
    at_work: Runs,
    done: Runs,
    depth: usize,
    ghost few: { length (runs_of at_work) + length (runs_of done) ≤ depth },
    ghost deep: { 1 ≤ depth },
    ghost fits: { depth ≤ 32 },
}
