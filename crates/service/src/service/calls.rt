ghost use Rattle.std.specs.Prelude.{◌≡◌, ℕ, List};
ghost use Rattle.device.specs.Meaning.{Meaning};
ghost use Rattle.service.specs.Calls.{new_tables, pool_call, open_call, end_call, close_call};
ghost use Rattle.service.specs.Moments.{Leads, moment_at, makes_pool, opens, ends, closes};
ghost use Rattle.values.specs.declared.io.Io.{Io};

use super::Service;
use crate::fault::ServiceFault;
use crate::rows::Tables;
use sharing::rule::SharingRule;
use values::instant::Instant;
use values::rates::Rates;
use values::settings::Settings;

// Each call says that the rule stays (`rule`): that compares two moments, which no ghost field can say.
impl<R: SharingRule> Service<R> {
    // A service with no pools and no sessions.
    pub fn new(settings: Settings, rule: R) -> Service<R>
        ensures tables { result.tables ≡ new_tables settings.throughput settings.«cap» }
        ensures rule { result.rule ≡ rule }
    {
        Service {
            tables: Tables::new(settings),
            rule,
        }
    }

    // Makes a pool. Answers its number: pools are numbered from 0 in the order of making.
    pub fn make_pool(&mut self, present: Instant, rates: Rates) -> Result<u8, ServiceFault>
        ensures answer { result ≡ (pool_call present.micros rates self.old.tables).0 }
        ensures leaves { self.new.tables ≡ (pool_call present.micros rates self.old.tables).1 }
        ensures rule { self.new.rule ≡ self.old.rule }
        ensures step { (places : ℕ) (line : List Io) (device : Meaning) → Leads (makes_pool present rates) result (moment_at self.old.tables places line device) (moment_at self.new.tables places line device) }
    {
        self.tables.make_pool(present, rates)
    }

    // Opens a session of a pool. Answers its name, which no other session gets.
    pub fn open(&mut self, present: Instant, pool: u8, rates: Rates) -> Result<u32, ServiceFault>
        ensures answer { result ≡ (open_call present.micros pool rates self.old.tables).0 }
        ensures leaves { self.new.tables ≡ (open_call present.micros pool rates self.old.tables).1 }
        ensures rule { self.new.rule ≡ self.old.rule }
        ensures step { (places : ℕ) (line : List Io) (device : Meaning) → Leads (opens present pool rates) result (moment_at self.old.tables places line device) (moment_at self.new.tables places line device) }
    {
        self.tables.open(present, pool, rates)
    }

    // Ends the open session of a name: it takes no arrivals any more. Answers the name.
    pub fn end(&mut self, name: u32) -> Result<u32, ServiceFault>
        ensures answer { result ≡ (end_call name self.old.tables).0 }
        ensures leaves { self.new.tables ≡ (end_call name self.old.tables).1 }
        ensures rule { self.new.rule ≡ self.old.rule }
        ensures step { (places : ℕ) (line : List Io) (device : Meaning) → Leads (ends name) result (moment_at self.old.tables places line device) (moment_at self.new.tables places line device) }
    {
        self.tables.end(name)
    }

    // Closes the ended session of a name, all of whose I/Os are handed back: its place and reserve are free. Answers the name.
    pub fn close(&mut self, name: u32) -> Result<u32, ServiceFault>
        ensures answer { result ≡ (close_call name self.old.tables).0 }
        ensures leaves { self.new.tables ≡ (close_call name self.old.tables).1 }
        ensures rule { self.new.rule ≡ self.old.rule }
        ensures step { (places : ℕ) (line : List Io) (device : Meaning) → Leads (closes name) result (moment_at self.old.tables places line device) (moment_at self.new.tables places line device) }
    {
        self.tables.close(name)
    }
}
