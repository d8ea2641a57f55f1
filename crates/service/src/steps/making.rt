ghost use Rattle.std.specs.Prelude.{◌≡◌, ◌≤◌};
ghost use Rattle.service.specs.Calls.{new_tables, pool_place, pool_call};

use super::reserves::reserves_of;
use crate::fault::{ServiceFault, ServiceWhy};
use crate::rows::{Pool, Session, Tables};
use account::row::Account;
use values::instant::Instant;
use values::rates::Rates;
use values::settings::Settings;

impl Tables {
    // The tables with no pools and no sessions.
    pub(crate) fn new(settings: Settings) -> Tables
        ensures { result ≡ new_tables settings.throughput settings.«cap» }
    {
        Tables {
            throughput: settings.throughput,
            cap: settings.cap,
            latest: 0,
            orders: 0,
            made: 0,
            opened: 0,
            arrivals: 0,
            pools: [Pool::NONE; 16],
            sessions: [Session::FREE; 64],
        }
    }

    // The number that a new pool gets, or why it is refused.
    fn pool_place(&self, present: Instant, rates: Rates) -> Result<u8, ServiceFault>
        ensures { result ≡ pool_place present.micros rates self.now }
    {
        if present.micros < self.latest {
            return Err(ServiceWhy::InstantBefore.into());
        }
        if self.made >= 16 {
            return Err(ServiceWhy::NoPlace.into());
        }
        let reserved = reserves_of(&self.pools[..self.made]);
        if reserved.saturating_add(rates.reserve.into()) > self.throughput.into() {
            return Err(ServiceWhy::NoReserve.into());
        }
        Ok(self.made as u8)
    }

    // Makes a pool.
    pub(crate) fn make_pool(&mut self, present: Instant, rates: Rates) -> Result<u8, ServiceFault>
        requires { self.old.orders ≤ 8000000016 }
        ensures answer { result ≡ (pool_call present.micros rates self.old).0 }
        ensures leaves { self.new ≡ (pool_call present.micros rates self.old).1 }
    {
        let number = self.pool_place(present, rates)?;
        self.pools[usize::from(number)] = Pool {
            account: Account::new(rates, present, self.orders),
        };
        self.latest = present.micros;
        self.made += 1;
        self.orders += 1;
        Ok(number)
    }
}
