ghost use Rattle.std.specs.Prelude.{◌≡◌, false, is_ok, MatchResult};
ghost use Rattle.stream.specs.Ranges.{in_range, checked_says};

use super::event::Event;
use sharing::shipped::Rule;
use values::fault::ValueFault;
use values::instant::Instant;
use values::io::Io;
use values::rates::Rates;
use values::settings::Settings;

// An event in checked values.
#[derive(Clone, Copy)]
pub enum Checked {
    Begin {
        settings: Settings,
        rule: Rule,
    },
    Pool {
        instant: Instant,
        rates: Rates,
    },
    Open {
        instant: Instant,
        pool: u8,
        rates: Rates,
    },
    Arrival {
        io: Io,
    },
    Schedule {
        instant: Instant,
    },
    End {
        session: u32,
    },
    Close {
        session: u32,
    },
    Work,
    Collect,
}

// The checked values of an event; refused exactly where a number is out of its range.
impl TryFrom<Event> for Checked {
    type Error = ValueFault;

    ghost use Rattle.stream.specs.Ranges.{ValuesOf};

    ghost try_from_gives = { ValuesOf };

    fn try_from(event: Event) -> Result<Checked, ValueFault> {
        match event {
            Event::Begin {
                throughput,
                cap,
                rule,
            } => Ok(Checked::Begin {
                settings: Settings::new(throughput, cap)?,
                rule,
            }),
            Event::Pool { instant, rates } => Ok(Checked::Pool {
                instant: Instant::new(instant)?,
                rates: rates.try_into()?,
            }),
            Event::Open {
                instant,
                pool,
                rates,
            } => Ok(Checked::Open {
                instant: Instant::new(instant)?,
                pool,
                rates: rates.try_into()?,
            }),
            Event::Arrival {
                session,
                direction,
                address,
                length,
            } => Ok(Checked::Arrival {
                io: Io::new(session, direction, address, length)?,
            }),
            Event::Schedule { instant } => Ok(Checked::Schedule {
                instant: Instant::new(instant)?,
            }),
            Event::End { session } => Ok(Checked::End { session }),
            Event::Close { session } => Ok(Checked::Close { session }),
            Event::Work => Ok(Checked::Work),
            Event::Collect => Ok(Checked::Collect),
        }
    }
}

// Turns an event into checked values; refused exactly where a number is out of its range, with the offset of the event's field.
pub fn check(event: Event, offset: usize) -> Result<Checked, ValueFault>
    ensures says { MatchResult result (λ x. checked_says x ≡ event) (λ f. (f.offset ≡ offset) × (in_range event ≡ false)) }
    ensures range { is_ok result ≡ in_range event }
{
    Checked::try_from(event).map_err(|_| ValueFault { offset })
}
