ghost use Rattle.std.specs.Prelude.{◌≤◌};

pub mod making;

// An instant: whole microseconds, from 0 to 1,099,511,627,775.
#[derive(Clone, Copy)]
pub struct Instant {
    pub micros: u64,
    ghost lawful: { micros ≤ 1099511627775 },
}
