ghost use Rattle.std.specs.Prelude.{◌≡◌};
ghost use Rattle.stream.specs.Spelling.{tag_in};

use super::tag::Tag;
use sharing::shipped::Rule;
use values::fault::ValueFault;
use values::rates::Rates;

// The reserve, the burst and the limit of a pool or a session, exactly as a field spells them, in range or not.
#[derive(Clone, Copy, Debug, PartialEq, Eq)]
pub struct SpelledRates {
    pub reserve: u32,
    pub burst: u8,
    pub limit: Option<u32>,
}

// The rates that spelled numbers stand for; refused exactly where they are not allowed.
impl TryFrom<SpelledRates> for Rates {
    type Error = ValueFault;

    ghost use Rattle.stream.specs.Ranges.{RatesOf};

    ghost try_from_gives = { RatesOf };

    fn try_from(rates: SpelledRates) -> Result<Rates, ValueFault> {
        Rates::new(rates.reserve, rates.limit, rates.burst)
    }
}

// An event, its numbers exactly as a field spells them, in range or not.
#[derive(Clone, Copy, Debug, PartialEq, Eq)]
pub enum Event {
    // A service begins.
    Begin {
        throughput: u32,
        cap: u8,
        rule: Rule,
    },
    // A pool is made.
    Pool {
        instant: u64,
        rates: SpelledRates,
    },
    // A session is opened.
    Open {
        instant: u64,
        pool: u8,
        rates: SpelledRates,
    },
    // An I/O of a session arrives. (Its direction is a number here, since a field may spell one that is no direction's.)
    Arrival {
        session: u32,
        direction: u8,
        address: u32,
        length: u8,
    },
    // Waiting I/Os are sent.
    Schedule {
        instant: u64,
    },
    // A session takes no more I/Os.
    End {
        session: u32,
    },
    // An ended session goes.
    Close {
        session: u32,
    },
    // The device works once.
    Work,
    // A done run is handed back.
    Collect,
}

// An event, and the offset of the field that spells it.
#[derive(Clone, Copy, Debug, PartialEq, Eq)]
pub struct Spelled {
    pub offset: usize,
    pub event: Event,
}

impl Event {
    // The tag of the event's field.
    pub fn tag(self) -> Tag
        ensures { result ≡ tag_in self }
    {
        match self {
            Event::Begin { .. } => Tag::Begin,
            Event::Pool { .. } => Tag::Pool,
            Event::Open { .. } => Tag::Open,
            Event::Arrival { .. } => Tag::Arrival,
            Event::Schedule { .. } => Tag::Schedule,
            Event::End { .. } => Tag::End,
            Event::Close { .. } => Tag::Close,
            Event::Work => Tag::Work,
            Event::Collect => Tag::Collect,
        }
    }
}
