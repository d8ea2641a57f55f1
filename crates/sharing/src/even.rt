ghost use Rattle.sharing.specs.Levels.{even_level};

use super::rule::SharingRule;
use usage::ServiceRecord;

// The level is the count of runs sent when not due: spare service is given out evenly.
#[derive(Clone, Copy)]
pub struct Even;

impl SharingRule for Even {
    ghost level = { λ _ usage. even_level usage };

    fn level_of(&self, usage: &ServiceRecord) -> u64 {
        u64::from(usage.not_due)
    }
}
