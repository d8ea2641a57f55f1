ghost use Rattle.std.specs.Prelude.{◌≡◌, ◌<◌, ◌≤◌, [], length, MatchOption, MatchResult};
ghost use Rattle.device.specs.Bays.{bay_means, joined, Finished, TookFirst};
ghost use Rattle.device.specs.Meaning.{held_by};
ghost use Rattle.device.specs.Runs.{runs_of};

use super::Bay;
use crate::device::DeviceFull;
use crate::runs::Runs;
use values::io::Run;

impl Bay {
    // An empty bay of a depth.
    pub fn new(depth: usize) -> Bay
        requires { (1 ≤ depth) × (depth ≤ 32) }
        ensures { bay_means result ≡ record { working = []; done = []; depth = depth } }
    {
        Bay {
            at_work: Runs::new(),
            done: Runs::new(),
            depth,
        }
    }

    // How many runs the bay takes.
    pub fn depth(&self) -> usize
        ensures { result ≡ (bay_means self.now).depth }
    {
        self.depth
    }

    // How many runs are inside.
    pub fn held(&self) -> usize
        ensures { result ≡ held_by (bay_means self.now) }
    {
        self.at_work.len() + self.done.len()
    }

    // The runs at work, in the order of putting.
    pub fn at_work(&self) -> &Runs
        ensures { runs_of result.now ≡ (bay_means self.now).working }
    {
        &self.at_work
    }

    // Adds a run behind those at work; refused, and nothing changed, exactly where the depth is held.
    pub fn put(&mut self, run: Run) -> Result<(), DeviceFull>
        ensures { MatchResult result (λ _. (held_by (bay_means self.old) < (bay_means self.old).depth) × (bay_means self.new ≡ joined (bay_means self.old) run)) (λ _. ((bay_means self.old).depth ≤ held_by (bay_means self.old)) × (self.new ≡ self.old)) }
    {
        if self.held() >= self.depth {
            return Err(DeviceFull);
        }
        self.at_work.push(run);
        Ok(())
    }

    // Moves the run at a place from those at work behind those done; none, and nothing changed, exactly where no run stands there.
    pub fn finish(&mut self, place: usize) -> Option<Run>
        ensures { MatchOption result ((length (bay_means self.old).working ≤ place) × (self.new ≡ self.old)) (λ run. Finished (bay_means self.old) place run (bay_means self.new)) }
    {
        let run = self.at_work.pop_at(place)?;
        self.done.push(run);
        Some(run)
    }

    // Takes out the run done longest; none, and nothing changed, exactly where none is done.
    pub fn take(&mut self) -> Option<Run>
        ensures { MatchOption result (((bay_means self.old).done ≡ []) × (self.new ≡ self.old)) (λ run. TookFirst (bay_means self.old) run (bay_means self.new)) }
    {
        self.done.pop_at(0)
    }
}
