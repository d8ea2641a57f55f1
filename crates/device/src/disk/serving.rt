ghost use Rattle.std.specs.Prelude.{◌≡◌, ◌≤◌, [], length, MatchOption};
ghost use Rattle.device.specs.Disks.{disk_means, disk_puts, ServedNext, disk_works, disk_takes};
ghost use Rattle.device.specs.Meaning.{Worked};
ghost use Rattle.std.proofs.Common.{rules};

use super::Disk;
use crate::bay::Bay;
use crate::device::{Device, DeviceFull};
use crate::policy::Policy;
use values::io::Run;

impl<P: Policy> Disk<P> {
    // An empty disk of a depth.
    pub(crate) fn empty(depth: usize, policy: P) -> Disk<P>
        requires { (1 ≤ depth) × (depth ≤ 32) }
        ensures { (disk_means result ≡ record { working = []; done = []; depth = depth }) × (result.policy ≡ policy) }
    {
        Disk {
            bay: Bay::new(depth),
            policy,
        }
    }

    // Moves the run that the policy picks to those done; none, and nothing changed, exactly where none is at work.
    fn move_next(&mut self) -> Option<Run>
        ensures meant { MatchOption result (Worked (disk_means self.old) (disk_means self.new) 0) (λ run. Worked (disk_means self.old) (disk_means self.new) 1) }
        ensures exact { MatchOption result ((length (disk_means self.old).working ≡ 0) × (self.new ≡ self.old)) (λ run. ServedNext P.picks P.moves self.old run self.new) }
    {
        let place = self.policy.pick(self.bay.at_work())?;
        let run = self.bay.finish(place)?;
        self.policy.served(run);
        Some(run)
    }
}

impl<P: Policy> Device for Disk<P> {
    ghost means = { disk_means };

    ghost puts = { disk_puts };

    ghost works = { disk_works P.picks P.moves };

    ghost takes = { disk_takes };

    ghost deep = { Prim.search rules };

    fn depth(&self) -> usize {
        self.bay.depth()
    }

    fn held(&self) -> usize {
        self.bay.held()
    }

    fn put(&mut self, run: Run) -> Result<(), DeviceFull> {
        self.bay.put(run)
    }

    fn work(&mut self) -> usize {
        // Not `usize::from(..is_some())` nor `map_or(0, |_| 1)`: of these the exact clause does not prove.
        match self.move_next() {
            Some(_) => 1,
            None => 0,
        }
    }

    fn take(&mut self) -> Option<Run> {
        self.bay.take()
    }
}
