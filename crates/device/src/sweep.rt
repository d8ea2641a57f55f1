ghost use Rattle.std.specs.Prelude.{◌≡◌, ℕ, ◌+◌, ◌-◌, ◌%◌, ◌^◌, length, Some, MatchOption};
ghost use Rattle.device.specs.Runs.{runs_of};
ghost use Rattle.device.specs.Sweeps.{away, Nearest};

use crate::runs::Runs;
use order::keys::Distance;
use order::least::least;
use values::io::Run;

// How far the arm goes up to a run, round the end of the disk.
fn distance(arm: u32, run: Run) -> u32
    ensures { result ≡ away arm run }
{
    run.extent.address.wrapping_sub(arm)
}

// The place of the run that the arm meets first, the first put among equals: the only one that is so.
pub fn nearest(arm: u32, runs: &Runs) -> Option<usize>
    ensures chosen { MatchOption result (length (runs_of runs.now) ≡ 0) (λ place. Nearest arm (runs_of runs.now) place) }
    ensures only { (place : ℕ) → Nearest arm (runs_of runs.now) place → result ≡ Some place }
{
    let runs = runs.as_slice();
    let mut keys = [Distance {
        sectors: 0,
        place: 0,
    }; 32];
    // As many keys as there are runs: `array::from_fn` would make and compare 32 for a single one.
    for (place, run) in runs.iter().enumerate() {
        keys[place] = Distance {
            sectors: distance(arm, *run),
            place,
        };
    }
    least(&keys[..runs.len()])
}
