ghost use Rattle.std.specs.Prelude.{◌≡◌, ℕ, ◌≤◌, [], Option, MatchOption, MatchResult};
ghost use Rattle.device.specs.Meaning.{Meaning, held_by, Put, Worked, Took};
ghost use Rattle.values.specs.declared.io.Run.{Run};

use std::error::Error;
use std::fmt;
use values::io::Run;

// A device holds its depth already, and takes no run more.
#[derive(Clone, Copy, Debug, PartialEq, Eq)]
pub struct DeviceFull;

impl fmt::Display for DeviceFull {
    ghost use Rattle.std.specs.Prelude.{Some, codes};

    ghost output = { λ _. Some (codes "the device holds as many runs as its depth") };

    fn fmt<W: fmt::Write>(&self, f: &mut fmt::Formatter<W>) -> fmt::Result {
        f.write_str("the device holds as many runs as its depth")
    }
}

impl Error for DeviceFull {}

// A device, by what it means: runs at work and runs done, whose order is of no account, and a fixed depth.
// A device may come with runs inside, even with more than its depth. Open in the meaning are which runs `work` moves and
// which done run `take` gives; in their place the meaning says that no run is dropped and none invented.
// `puts`, `works` and `takes` are what the calls do to this device exactly, each device in its own words.
pub trait Device {
    ghost means: { Self → Meaning };

    ghost puts: { Self → Run → Self → Type 0 };

    ghost works: { Self → ℕ → Self → Type 0 };

    ghost takes: { Self → Run → Self → Type 0 };

    // How many runs the device takes.
    fn depth(&self) -> usize
        ensures { result ≡ (means self.now).depth };

    // How many runs are inside, at work and done together.
    fn held(&self) -> usize
        ensures { result ≡ held_by (means self.now) };

    // Adds a run to those at work; refused, and then nothing moves, exactly where the depth is held already.
    fn put(&mut self, run: Run) -> Result<(), DeviceFull>
        ensures meant { MatchResult result (λ _. Put (means self.old) run (means self.new)) (λ _. (means self.old).depth ≤ held_by (means self.old)) }
        ensures exact { MatchResult result (λ _. puts self.old run self.new) (λ _. self.new ≡ self.old) };

    // Moves some runs, perhaps none, from at work to done; how many.
    fn work(&mut self) -> usize
        ensures meant { Worked (means self.old) (means self.new) result }
        ensures exact { works self.old result self.new };

    // Takes out one done run; none, and then nothing moves, exactly where none is done.
    fn take(&mut self) -> Option<Run>
        ensures meant { MatchOption result ((means self.old).done ≡ []) (λ run. Took (means self.old) run (means self.new)) }
        ensures exact { MatchOption result (self.new ≡ self.old) (λ run. takes self.old run self.new) };

    ghost deep: { (d : Self) → 1 ≤ (means d).depth };
}
