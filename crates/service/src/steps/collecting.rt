ghost use Rattle.std.specs.Prelude.{◌≡◌, ◌≤◌};
ghost use Rattle.service.specs.Calls.{handed_row, hand_back, back_full, Collected, BackAfter, DeviceAfter};

use crate::fault::{ServiceFault, ServiceWhy};
use crate::rows::{HandedBack, Session, Tables};
use device::device::Device;
use line::Line;
use values::io::Run;

impl Session {
    // So many I/Os are handed back.
    fn hand_back(&mut self, count: u32)
        requires { count ≤ self.old.inside }
        ensures { self.new ≡ handed_row count self.old }
    {
        self.inside -= count;
    }
}

impl Tables {
    // Counts a run that was taken off the device as handed back, unless it is foreign.
    pub(crate) fn hand_back(&mut self, run: Run) -> HandedBack
        ensures answer { result ≡ (hand_back run self.old).0 }
        ensures leaves { self.new ≡ (hand_back run self.old).1 }
    {
        let count = u32::from(run.count);
        let Some(i) = self.present_session(run.session) else {
            return HandedBack { run, foreign: true };
        };
        if count > self.sessions[i].inside {
            return HandedBack { run, foreign: true };
        }
        self.sessions[i].hand_back(count);
        HandedBack {
            run,
            foreign: false,
        }
    }

    // Takes one done run off the device and adds it to the hand-back line, over the same table (as at an arrival).
    pub(crate) fn collect<D: Device>(
        &mut self,
        device: &mut D,
        back: &mut Line<'_, HandedBack>,
    ) -> Result<HandedBack, ServiceFault>
        ensures done { Collected result (back_full back.old.places.now back.old.len) self.old (D.means device.old) self.new (D.means device.new) }
        ensures exact { DeviceAfter D.takes result device.old device.new }
        ensures same { back.new.places.ghost_name ≡ back.old.places.ghost_name }
        ensures line { BackAfter result back.old.places.now back.old.len back.new.places.now back.new.len }
    {
        if back.is_full() {
            return Err(ServiceWhy::HandBackFull.into());
        }
        let run = device.take().ok_or(ServiceWhy::NothingDone)?;
        let handed = self.hand_back(run);
        back.append(handed).map_err(|_| ServiceWhy::HandBackFull)?;
        Ok(handed)
    }
}
