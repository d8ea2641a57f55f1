use account::row::Account;
use order::keys::DueMark;
use usage::ServiceRecord;
use values::io::Run;

// Whether a place of the table of sessions is free, or its session open or ended.
#[derive(Clone, Copy, Debug, PartialEq, Eq)]
pub enum State {
    Free,
    Open,
    Ended,
}

// A place of the table of sessions: the session's name, its pool, its account, and how many of its I/Os were accepted,
// are accepted and not sent, and are sent and not handed back. The others of those accepted are handed back.
// Plain rows with their state beside, not Options: the rules ask for a table of session records that is changed in place.
#[derive(Clone, Copy)]
pub struct Session {
    pub state: State,
    pub name: u32,
    pub pool: u8,
    pub account: Account,
    pub accepted: u32,
    pub unsent: u32,
    pub inside: u32,
}

// A place of the table of pools.
#[derive(Clone, Copy)]
pub struct Pool {
    pub account: Account,
}

// A run that was collected, and whether it is foreign: of no present session, or of more I/Os than its session has inside.
// A mark beside the run, not two variants: every reader but one takes the run without asking.
#[derive(Clone, Copy)]
pub struct HandedBack {
    pub run: Run,
    pub foreign: bool,
}

// All that a service holds beside its sharing rule: settings, the latest accepted instant, the next order number,
// the counts of pools made, of openings and of arrivals accepted, and the two tables. Of fixed size and Copy, since the service
// takes no memory and the rules are functions from tables to tables; so the pools made are those before a count.
#[derive(Clone, Copy)]
pub struct Tables {
    pub throughput: u32,
    pub cap: u8,
    pub latest: u64,
    pub orders: u64,
    pub made: usize,
    pub opened: u32,
    pub arrivals: u32,
    pub pools: [Pool; 16],
    pub sessions: [Session; 64],
}

// What stands in a place that has no pool or session.
const NO_ACCOUNT: Account = Account {
    reserve: 0,
    limit: None,
    burst: 1,
    reserve_units: 0,
    limit_units: None,
    settled_at: 0,
    mark: DueMark {
        at: None,
        number: 0,
    },
    usage: ServiceRecord {
        quarter: 0,
        recent: [0; 20],
        not_due: 0,
    },
};

impl Session {
    // A free place.
    pub const FREE: Session = Session {
        state: State::Free,
        name: 0,
        pool: 0,
        account: NO_ACCOUNT,
        accepted: 0,
        unsent: 0,
        inside: 0,
    };
}

impl Pool {
    // A place with no pool.
    pub const NONE: Pool = Pool {
        account: NO_ACCOUNT,
    };
}
