ghost use Rattle.std.specs.Prelude.{◌≡◌, ℕ, ◌<◌, false, slice_index_or};
ghost use Rattle.choosing.specs.Free.{run_at, usable_head, lets_go, pool_lets_go, row_goes, is_free_to_go};
ghost use Rattle.heads.specs.Heads.{head_says};
ghost use Rattle.std.specs.Option.{option_map};

use crate::view::{FreePlaces, View};
use account::row::Account;
use heads::head::Head;
use service::rows::{Session, Tables};
use values::instant::Instant;

// The head run of a present session, if the session has as many I/Os accepted and not sent.
pub fn usable(row: &Session, head: Option<Head>) -> Option<Head>
    ensures { option_map head_says result ≡ usable_head row.now (option_map head_says head) }
{
    head.filter(|head| row.state.is_present() && u32::from(head.count) <= row.unsent)
}

// Whether the limit bucket of an account lets a run go.
fn lets_go(account: &Account, present: Instant) -> bool
    ensures { result ≡ lets_go present.micros account.now }
{
    account.may_send(present).unwrap_or(false)
}

// The same of a pool's account, by the pool's number; past the 16 places there is none.
fn pool_lets_go(tables: &Tables, number: u8, present: Instant) -> bool
    ensures { result ≡ pool_lets_go tables.now present.micros number }
{
    tables
        .pool(number)
        .is_some_and(|pool| lets_go(&pool.account, present))
}

impl<'a> View<'a> {
    // Whether a session that has this head run is free to go.
    fn is_free_to_go(&self, row: &Session, head: Option<Head>) -> bool
        ensures { result ≡ row_goes self.now.tables.now self.now.present.micros row.now (option_map head_says head) }
    {
        usable(row, head).is_some()
            && lets_go(&row.account, self.present)
            && pool_lets_go(self.tables, row.pool, self.present)
    }

    // All places whose session is free to go.
    pub fn free_places(&self) -> FreePlaces<'a>
        ensures same { (result.tables.now ≡ self.now.tables.now) × (result.present ≡ self.now.present) }
        ensures free { (k : ℕ) → k < 64 → slice_index_or result.free k false ≡ is_free_to_go self.now.tables.now (run_at self.now.heads.now) self.now.present.micros k }
    {
        let heads = self.heads;
        // The closure's clauses say what each place gets.
        let free = std::array::from_fn(
            |place|
                requires { place < 64 }
                ensures { result ≡ is_free_to_go self.entry.now.tables.now (run_at heads.entry.now) self.entry.now.present.micros place }
            { self.is_free_to_go(&self.tables.sessions[place], heads[place]) },
        );
        FreePlaces {
            tables: self.tables,
            free,
            present: self.present,
        }
    }
}
