ghost use Rattle.std.specs.Prelude.{◌≡◌};
ghost use Rattle.choosing.specs.Due.{pool_mark, earlier_mark, row_mark, has_come, row_due_key, due_choice};
ghost use Rattle.choosing.specs.Free.{free_in};

use crate::view::FreePlaces;
use order::key::Key;
use order::keys::DueMark;
use order::least::least_candidate;
use service::rows::{Session, Tables};
use values::instant::Instant;

// The mark that never comes.
const NEVER: DueMark = DueMark {
    at: None,
    number: 0,
};

// The earlier of two marks.
fn earlier(own: DueMark, pool: DueMark) -> DueMark
    ensures { result ≡ earlier_mark own pool }
{
    if pool.goes_before(&own) { pool } else { own }
}

// The mark of a pool, by its number; past the 16 places it is never.
fn pool_mark(tables: &Tables, number: u8) -> DueMark
    ensures { result ≡ pool_mark tables.now number }
{
    tables.pool(number).map_or(NEVER, |pool| pool.account.mark)
}

// The earlier of a session's own mark and its pool's.
pub(crate) fn effective_mark(tables: &Tables, row: &Session) -> DueMark
    ensures { result ≡ row_mark tables.now row.now }
{
    earlier(row.account.mark, pool_mark(tables, row.pool))
}

// Whether a mark's instant has come.
fn has_come(at: Option<u64>, present: Instant) -> bool
    ensures { result ≡ has_come present.micros at }
{
    at.is_some_and(|at| at <= present.micros)
}

impl FreePlaces<'_> {
    // The effective mark and the own mark of a free session whose effective mark has come.
    fn due_key(&self, row: &Session, free: bool) -> Option<(DueMark, DueMark)>
        ensures { result ≡ row_due_key self.now.tables.now self.now.present.micros row.now free }
    {
        let effective = effective_mark(self.tables, row);
        (free && has_come(effective.at, self.present)).then_some((effective, row.account.mark))
    }

    // The place of the free session that goes by its mark.
    pub fn due_choice(&self) -> Option<usize>
        ensures { result ≡ due_choice self.now.tables.now (free_in self.now.free) self.now.present.micros }
    {
        let keys: [Option<(DueMark, DueMark)>; 64] = std::array::from_fn(|place| {
            self.due_key(&self.tables.sessions[place], self.free[place])
        });
        least_candidate(&keys)
    }
}
