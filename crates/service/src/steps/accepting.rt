ghost use Rattle.std.specs.Prelude.{◌≡◌, ℕ, ◌<◌, true, false, IfOk};
ghost use Rattle.service.specs.Calls.{accepted_row, arrival_place, arrival_call, line_full, LineAfter};
ghost use Rattle.service.specs.Rows.{session, counts_fit};

use crate::fault::{ServiceFault, ServiceWhy};
use crate::rows::{Session, Tables};
use line::Line;
use values::io::Io;

// Whether a waiting line is full: of a longer table only the first 4,096 places are used.
fn line_full(waiting: &Line<'_, Io>) -> bool
    ensures { result ≡ line_full waiting.now.places.now waiting.now.len }
{
    waiting.is_full() || waiting.len() >= 4096
}

impl Session {
    // One more I/O is accepted.
    fn accept(&mut self)
        requires few { self.old.accepted < 4000000000 }
        requires less { self.old.unsent < 4000000000 }
        ensures { self.new ≡ accepted_row self.old }
    {
        self.accepted += 1;
        self.unsent += 1;
    }
}

impl Tables {
    // The place of the session that an I/O arrives at, with its bound beside (see find.rt), or why it is refused.
    fn arrival_place(&self, full: bool, io: Io) -> Result<usize, ServiceFault>
        ensures is { result ≡ arrival_place full io self.now }
        ensures within { IfOk result (λ i. i < 64) }
        ensures few { IfOk result (λ i. (self.now.arrivals < 4000000000) × (full ≡ false)) }
    {
        let i = self
            .open_session(io.session)
            .ok_or(ServiceWhy::NoSuchSession)?;
        if full {
            return Err(ServiceWhy::WaitingLineFull.into());
        }
        if self.arrivals >= 4_000_000_000 {
            return Err(ServiceWhy::CountedOut.into());
        }
        Ok(i)
    }

    // Accepts an I/O into the waiting line, over the same table (which compares two moments: no ghost field can say it).
    pub(crate) fn arrival(
        &mut self,
        waiting: &mut Line<'_, Io>,
        io: Io,
    ) -> Result<u32, ServiceFault>
        requires counts { (k : ℕ) → k < 64 → counts_fit self.old.arrivals (session self.old k) ≡ true }
        ensures answer { result ≡ (arrival_call (line_full waiting.old.places.now waiting.old.len) io self.old).0 }
        ensures leaves { self.new ≡ (arrival_call (line_full waiting.old.places.now waiting.old.len) io self.old).1 }
        ensures same { waiting.new.places.ghost_name ≡ waiting.old.places.ghost_name }
        ensures line { LineAfter result io waiting.old.places.now waiting.old.len waiting.new.places.now waiting.new.len }
    {
        let full = line_full(waiting);
        let i = self.arrival_place(full, io)?;
        waiting.append(io).map_err(|_| ServiceWhy::WaitingLineFull)?;
        let number = self.sessions[i].accepted;
        self.sessions[i].accept();
        self.arrivals += 1;
        Ok(number)
    }
}
