ghost use Rattle.std.specs.Prelude.{◌≡◌, ℕ, ◌<◌, List, length, MatchOption};
ghost use Rattle.device.specs.Runs.{runs_of};
ghost use Rattle.values.specs.declared.io.Run.{Run};

use crate::runs::Runs;
use values::io::Run;

// How a disk serves its runs: which one it serves next, and what serving it changes in the policy.
// `picks` says which place of the runs at work, in the order of putting, may be served next, `moves` what a served run changes.
pub trait Policy {
    ghost picks: { Self → List Run → ℕ → Type 0 };

    ghost moves: { Self → Run → Self → Type 0 };

    // The place of the run to serve next; none exactly where there are no runs.
    fn pick(&self, runs: &Runs) -> Option<usize>
        ensures { MatchOption result (length (runs_of runs.now) ≡ 0) (λ place. (place < length (runs_of runs.now)) × picks self.now (runs_of runs.now) place) };

    // Takes note of a run that was served.
    fn served(&mut self, run: Run)
        ensures { moves self.old run self.new };
}
