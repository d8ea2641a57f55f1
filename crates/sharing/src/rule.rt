ghost use Rattle.std.specs.Prelude.{◌≡◌, ℕ};
ghost use Rattle.usage.specs.declared.ServiceRecord.{ServiceRecord};

use usage::ServiceRecord;

// A sharing rule means a whole number, the level, for each service record: the lower it is, the sooner spare service is given.
pub trait SharingRule {
    ghost level: { Self → ServiceRecord → ℕ };

    // The level of a record; asking alters nothing.
    fn level_of(&self, usage: &ServiceRecord) -> u64
        ensures { result ≡ level self.now usage.now };
}
