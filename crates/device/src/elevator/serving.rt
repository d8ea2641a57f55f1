ghost use Rattle.std.specs.Prelude.{◌≡◌, []};
ghost use Rattle.device.specs.Devices.{elevator_means, elevator_picks, elevator_moves};

use super::{Arm, Elevator};
use crate::disk::Disk;
use crate::policy::Policy;
use crate::runs::Runs;
use crate::sweep::nearest;
use values::io::Run;

impl Disk<Arm> {
    // An empty elevator with its arm at address 0.
    pub fn new() -> Elevator
        ensures { (elevator_means result ≡ record { working = []; done = []; depth = 32 }) × (result.policy.address ≡ 0) }
    {
        Disk::empty(32, Arm { address: 0 })
    }
}

impl Policy for Arm {
    ghost picks = { elevator_picks };

    ghost moves = { elevator_moves };

    fn pick(&self, runs: &Runs) -> Option<usize> {
        nearest(self.address, runs)
    }

    fn served(&mut self, run: Run) {
        self.address = run.extent.end();
    }
}
