ghost use Rattle.std.specs.Prelude.{◌≡◌, ℕ, ◌<◌, false, if◌then◌else◌, ◌&&◌, ◌||◌, Some, None, ◌==◌, slice_index_or};
ghost use Rattle.choosing.specs.Free.{free_in};
ghost use Rattle.choosing.specs.Spare.{level_at, pool_has_free, named_level, pool_level, row_level, pool_choice, session_choice};

use crate::view::FreePlaces;
use account::row::Account;
use order::keys::Level;
use order::least::least_candidate;
use service::rows::Session;
use sharing::rule::SharingRule;
use values::instant::Instant;

// The level of an account, its service record moved on to an instant.
fn level_at<R: SharingRule>(rule: &R, account: &Account, present: Instant) -> u64
    ensures { result ≡ level_at (R.level rule.now) present.micros account.now }
{
    let mut usage = account.usage;
    usage.move_on(present);
    rule.level_of(&usage)
}

// Notes that a pool, by its number, has a free session.
fn note(has_free: &mut [bool; 16], number: u8, free: bool)
    ensures { (p : ℕ) → p < 16 → slice_index_or has_free.new p false ≡ (slice_index_or has_free.old p false || (free && number == p)) }
{
    let number = usize::from(number);
    if free && number < has_free.len() {
        has_free[number] = true;
    }
}

impl FreePlaces<'_> {
    // The level of an account, with the name of what has it. (Asked only of those to choose among: it costs the most of a choice.)
    fn named_level<R: SharingRule>(&self, rule: &R, account: &Account, name: u32) -> Level
        ensures { result ≡ named_level (R.level rule.now) self.now.present.micros account.now name }
    {
        Level {
            level: level_at(rule, account, self.present),
            name,
        }
    }

    // The key of a pool that has a free session, by its number.
    fn pool_key<R: SharingRule>(&self, rule: &R, number: usize, has_free: bool) -> Option<Level>
        requires { number < 16 }
        ensures { result ≡ (if has_free then Some (pool_level (R.level rule.now) self.now.tables.now self.now.present.micros number) else None) }
    {
        if has_free {
            let account = &self.tables.pools[number].account;
            Some(self.named_level(rule, account, number as u32))
        } else {
            None
        }
    }

    // The key of a free session of a pool, by its name.
    fn session_key<R: SharingRule>(
        &self,
        rule: &R,
        row: &Session,
        free: bool,
        pool: usize,
    ) -> Option<Level>
        ensures { result ≡ (if free && row.now.pool == pool then Some (row_level (R.level rule.now) self.now.present.micros row.now) else None) }
    {
        if free && usize::from(row.pool) == pool {
            Some(self.named_level(rule, &row.account, row.name))
        } else {
            None
        }
    }

    // Which pools have a free session, by one pass over the sessions: in fixed memory, beside the table of pools.
    fn pools_with_free(&self) -> [bool; 16]
        ensures { (p : ℕ) → p < 16 → slice_index_or result p false ≡ pool_has_free self.now.tables.now (free_in self.now.free) p }
    {
        let mut has_free = [false; 16];
        for (row, free) in self.tables.sessions.iter().zip(&self.free) {
            note(&mut has_free, row.pool, *free);
        }
        has_free
    }

    // The number of the pool of lowest level that has a free session.
    pub fn pool_choice<R: SharingRule>(&self, rule: &R) -> Option<usize>
        ensures { result ≡ pool_choice (R.level rule.now) self.now.tables.now (free_in self.now.free) self.now.present.micros }
    {
        let has_free = self.pools_with_free();
        let keys: [Option<Level>; 16] = std::array::from_fn(|number| self.pool_key(
            rule,
            number,
            has_free[number],
        ));
        least_candidate(&keys)
    }

    // The place of the pool's free session of lowest level.
    pub fn session_choice<R: SharingRule>(&self, rule: &R, pool: usize) -> Option<usize>
        ensures { result ≡ session_choice (R.level rule.now) self.now.tables.now (free_in self.now.free) self.now.present.micros pool }
    {
        let keys: [Option<Level>; 64] = std::array::from_fn(|place| {
            self.session_key(rule, &self.tables.sessions[place], self.free[place], pool)
        });
        least_candidate(&keys)
    }
}
