ghost use Rattle.service.specs.Sound.{Numbers};

use crate::rows::Tables;

pub mod calls;
pub mod lines;

// A service: its tables and its sharing rule.
#[derive(Drop)]
pub struct Service<R> {
    tables: Tables,
    rule: R,
    ghost sound: { Numbers tables },
}
