ghost use Rattle.std.specs.Prelude.{◌≡◌, ◌<◌, ◌≤◌, IfOk};
ghost use Rattle.service.specs.Calls.{place_for, open_place, open_call};
ghost use Rattle.service.specs.Rows.{first_fit, pool as pool_at, FreePlace};

use super::reserves::reserves_in;
use crate::fault::{ServiceFault, ServiceWhy};
use crate::rows::{Session, State, Tables};
use account::row::Account;
use values::instant::Instant;
use values::rates::Rates;

impl Tables {
    // The reserve of a pool, by its number.
    fn reserve_of(&self, pool: u8) -> u32
        ensures { result ≡ (pool_at self.now pool).account.reserve }
    {
        self.pool(pool).map_or(0, |pool| pool.account.reserve)
    }

    // The place that a new session of a pool gets, with its bound beside (see find.rt), or why it is refused.
    fn place_for(&self, pool: u8, rates: Rates) -> Result<usize, ServiceFault>
        ensures is { result ≡ place_for pool rates self.now (first_fit FreePlace self.now.sessions) }
        ensures within { IfOk result (λ i. i < 64) }
        ensures few { IfOk result (λ i. self.now.opened < 4000000000) }
    {
        let i = self.free_place().ok_or(ServiceWhy::NoPlace)?;
        let reserved = reserves_in(&self.sessions, pool);
        if reserved.saturating_add(rates.reserve.into()) > self.reserve_of(pool).into() {
            return Err(ServiceWhy::NoReserve.into());
        }
        if self.opened >= 4_000_000_000 {
            return Err(ServiceWhy::CountedOut.into());
        }
        Ok(i)
    }

    // The place that a new session gets, with its bound beside (see find.rt), or why it is refused.
    fn open_place(&self, present: Instant, pool: u8, rates: Rates) -> Result<usize, ServiceFault>
        ensures is { result ≡ open_place present.micros pool rates self.now }
        ensures within { IfOk result (λ i. i < 64) }
        ensures few { IfOk result (λ i. self.now.opened < 4000000000) }
    {
        if present.micros < self.latest {
            return Err(ServiceWhy::InstantBefore.into());
        }
        if usize::from(pool) >= self.made {
            return Err(ServiceWhy::NoSuchPool.into());
        }
        self.place_for(pool, rates)
    }

    // Opens a session.
    pub(crate) fn open(
        &mut self,
        present: Instant,
        pool: u8,
        rates: Rates,
    ) -> Result<u32, ServiceFault>
        requires { self.old.orders ≤ 8000000016 }
        ensures answer { result ≡ (open_call present.micros pool rates self.old).0 }
        ensures leaves { self.new ≡ (open_call present.micros pool rates self.old).1 }
    {
        let i = self.open_place(present, pool, rates)?;
        let name = self.opened;
        self.sessions[i] = Session {
            state: State::Open,
            name,
            pool,
            account: Account::new(rates, present, self.orders),
            ..Session::FREE
        };
        self.latest = present.micros;
        self.opened += 1;
        self.orders += 1;
        Ok(name)
    }
}
