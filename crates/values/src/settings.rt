ghost use Rattle.std.specs.Prelude.{◌≤◌};

pub mod making;

// The settings of a service: the throughput, the runs per second that the device surely does,
// and the cap, the most runs that it may hold.
#[derive(Clone, Copy)]
pub struct Settings {
    pub throughput: u32,
    pub cap: u8,
    ghost working: { 1 ≤ throughput },
    ghost fastest: { throughput ≤ 100000 },
    ghost some: { 1 ≤ cap },
    ghost most: { cap ≤ 32 },
}
