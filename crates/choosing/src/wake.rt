ghost use Rattle.std.specs.Prelude.{◌≡◌};
ghost use Rattle.choosing.specs.Free.{run_at};
ghost use Rattle.choosing.specs.Views.{seen};
ghost use Rattle.choosing.specs.Wake.{release_of, pool_release, later_of, earlier_of, after, row_release, row_wake_key, wake_at};
ghost use Rattle.choosing.specs.Woken.{RightWake};
ghost use Rattle.heads.specs.Heads.{head_says};
ghost use Rattle.std.specs.Option.{option_map};

use crate::due::effective_mark;
use crate::free::usable;
use crate::view::View;
use account::row::Account;
use heads::head::Head;
use service::rows::{Session, Tables};
use values::instant::Instant;

// The instant from which the limit bucket of an account lets a run go.
fn release_of(account: &Account, present: Instant) -> Option<u64>
    ensures { result ≡ release_of present.micros account.now }
{
    account.release(present)
}

// The same of a pool's account, by the pool's number; past the 16 places there is none.
fn pool_release(tables: &Tables, number: u8, present: Instant) -> Option<u64>
    ensures { result ≡ pool_release tables.now present.micros number }
{
    let pool = tables.pool(number)?;
    release_of(&pool.account, present)
}

// The later of two instants, if both are there.
fn later_of(x: Option<u64>, y: Option<u64>) -> Option<u64>
    ensures { result ≡ later_of x y }
{
    Some(x?.max(y?))
}

// The earlier of those of two instants that are there.
fn earlier_of(x: Option<u64>, y: Option<u64>) -> Option<u64>
    ensures { result ≡ earlier_of x y }
{
    match (x, y) {
        (Some(x), Some(y)) => Some(x.min(y)),
        _ => x.or(y),
    }
}

// An instant, if it is after the present one.
fn if_after(present: Instant, at: Option<u64>) -> Option<u64>
    ensures { result ≡ after present.micros at }
{
    at.filter(|at| present.micros < *at)
}

// The later of the releases of a session and its pool.
fn release_instant(tables: &Tables, row: &Session, present: Instant) -> Option<u64>
    ensures { result ≡ row_release tables.now present.micros row.now }
{
    later_of(
        release_of(&row.account, present),
        pool_release(tables, row.pool, present),
    )
}

impl View<'_> {
    // For a session with a usable head run: the earlier of its release instant and its effective due instant,
    // of those after the present instant.
    fn wake_key(&self, row: &Session, head: Option<Head>) -> Option<u64>
        ensures { result ≡ row_wake_key self.now.tables.now self.now.present.micros row.now (option_map head_says head) }
    {
        usable(row, head)?;
        earlier_of(
            if_after(
                self.present,
                release_instant(self.tables, row, self.present),
            ),
            if_after(self.present, effective_mark(self.tables, row).at),
        )
    }

    // The earliest release or effective due instant after the present instant, over the sessions with a usable head run.
    pub fn wake_up(&self) -> Option<u64>
        ensures is { result ≡ wake_at self.now.tables.now (run_at self.now.heads.now) self.now.present.micros }
        ensures right { RightWake (seen self.now) result }
    {
        let places = self.tables.sessions.iter().zip(self.heads);
        places
            .filter_map(|(row, head)| self.wake_key(row, *head))
            .min()
    }
}
