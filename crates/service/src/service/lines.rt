ghost use Rattle.std.specs.Prelude.{◌≡◌, ℕ, List, length};
ghost use Rattle.device.specs.Meaning.{Meaning};
ghost use Rattle.line.specs.Line.{records_of};
ghost use Rattle.service.specs.Calls.{line_full, arrival_call, LineAfter, back_full, Collected, BackAfter, DeviceAfter};
ghost use Rattle.service.specs.Moments.{Leads, moment_at, moment_of, arrives, collects};
ghost use Rattle.values.specs.declared.io.Io.{Io};

use super::Service;
use crate::fault::ServiceFault;
use crate::rows::HandedBack;
use device::device::Device;
use line::Line;
use sharing::rule::SharingRule;
use values::io::Io;

// The calls that are lent a line. Each says that the line's table is still the same one (`same`), which no ghost field can say.
impl<R: SharingRule> Service<R> {
    // Accepts an I/O of an open session into the waiting line. Answers its arrival number: a session's accepted I/Os are counted from 0.
    pub fn arrival(&mut self, waiting: &mut Line<'_, Io>, io: Io) -> Result<u32, ServiceFault>
        ensures answer { result ≡ (arrival_call (line_full waiting.old.places.now waiting.old.len) io self.old.tables).0 }
        ensures leaves { self.new.tables ≡ (arrival_call (line_full waiting.old.places.now waiting.old.len) io self.old.tables).1 }
        ensures rule { self.new.rule ≡ self.old.rule }
        ensures same { waiting.new.places.ghost_name ≡ waiting.old.places.ghost_name }
        ensures line { LineAfter result io waiting.old.places.now waiting.old.len waiting.new.places.now waiting.new.len }
        ensures step { (device : Meaning) → Leads (arrives io) result (moment_of self.old.tables waiting.old.places.now waiting.old.len device) (moment_of self.new.tables waiting.new.places.now waiting.new.len device) }
    {
        self.tables.arrival(waiting, io)
    }

    // Takes one done run off the device, counts its I/Os as handed back unless it is foreign, and adds it to the hand-back line.
    pub fn collect<D: Device>(
        &mut self,
        device: &mut D,
        back: &mut Line<'_, HandedBack>,
    ) -> Result<HandedBack, ServiceFault>
        ensures done { Collected result (back_full back.old.places.now back.old.len) self.old.tables (D.means device.old) self.new.tables (D.means device.new) }
        ensures exact { DeviceAfter D.takes result device.old device.new }
        ensures rule { self.new.rule ≡ self.old.rule }
        ensures same { back.new.places.ghost_name ≡ back.old.places.ghost_name }
        ensures line { BackAfter result back.old.places.now back.old.len back.new.places.now back.new.len }
        ensures step { (places : ℕ) (waiting : List Io) → Leads (collects (length back.old.places.now) (records_of back.old.places.now back.old.len) (records_of back.new.places.now back.new.len)) result (moment_at self.old.tables places waiting (D.means device.old)) (moment_at self.new.tables places waiting (D.means device.new)) }
    {
        self.tables.collect(device, back)
    }
}
