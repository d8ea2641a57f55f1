// Service records: what a session or pool was sent lately, and how much of it when not due.
#![tactic(auto)]

ghost use Rattle.std.specs.Prelude.{◌≡◌, ℕ, ◌≤◌};
ghost use Rattle.usage.specs.Usage.{quarter_of, unused, moved_to, one_more, sent_one};

use values::instant::Instant;

pub mod laws;
mod window;

// What a session or pool was sent: `recent` counts the runs of the quarter second `quarter` and of each of the 19 before it,
// and `not_due` all the runs that were sent when not due.
#[derive(Clone, Copy)]
pub struct ServiceRecord {
    pub quarter: u64,
    pub recent: [u32; 20],
    pub not_due: u32,
}

// The quarter second, counted from instant 0, that an instant lies in.
pub fn quarter_of(instant: Instant) -> u64
    ensures { result ≡ quarter_of instant.micros }
{
    instant.micros / 250_000
}

// One more, up to the most that a count holds.
fn one_more(count: u32) -> u32
    ensures { result ≡ one_more count }
{
    count.saturating_add(1)
}

impl ServiceRecord {
    // The record of one that was sent nothing yet.
    pub fn new(instant: Instant) -> ServiceRecord
        ensures { result ≡ unused (quarter_of instant.micros) }
    {
        ServiceRecord {
            quarter: quarter_of(instant),
            recent: [0; 20],
            not_due: 0,
        }
    }

    // Makes the record read as of an instant; one that lies before the present quarter changes nothing.
    pub fn move_on(&mut self, instant: Instant)
        ensures moved { self.new ≡ moved_to (quarter_of instant.micros) self.old }
        ensures lasting { (later : ℕ) → quarter_of instant.micros ≤ later → moved_to later self.new ≡ moved_to later self.old }
    {
        let quarter = quarter_of(instant);
        if self.quarter < quarter {
            let recent = window::shifted(self.recent, quarter - self.quarter);
            self.recent = recent;
            self.quarter = quarter;
        }
    }

    // Counts one run in the present quarter and, if it was not due, one as sent when not due.
    pub fn count_send(&mut self, due: bool)
        ensures { self.new ≡ sent_one due self.old }
    {
        self.recent[0] = one_more(self.recent[0]);
        if !due {
            self.not_due = one_more(self.not_due);
        }
    }
}
