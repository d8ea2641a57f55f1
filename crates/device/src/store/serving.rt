ghost use Rattle.std.specs.Prelude.{◌≡◌, []};
ghost use Rattle.device.specs.Devices.{store_means, store_picks, store_moves};

use super::{LineStore, OldestFirst};
use crate::disk::Disk;
use crate::policy::Policy;
use crate::runs::Runs;
use values::io::Run;

impl Disk<OldestFirst> {
    // An empty line store.
    pub fn new() -> LineStore
        ensures { store_means result ≡ record { working = []; done = []; depth = 16 } }
    {
        Disk::empty(16, OldestFirst)
    }
}

impl Policy for OldestFirst {
    ghost picks = { store_picks };

    ghost moves = { store_moves };

    fn pick(&self, runs: &Runs) -> Option<usize> {
        if runs.is_empty() { None } else { Some(0) }
    }

    fn served(&mut self, _run: Run) {}
}
