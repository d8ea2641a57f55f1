ghost use Rattle.std.specs.Prelude.{◌≡◌, ◌*◌, ◌<◌, ◌≤◌};
ghost use Rattle.sharing.specs.Levels.{weight_of, weight_at, water_level};

use super::rule::SharingRule;
use usage::ServiceRecord;

// The weight, in millionths, of a run sent in the present quarter second, in the one before it, and so on.
const WEIGHTS: [u64; 20] = [
    1_000_000, 900_000, 810_000, 729_000, 656_100, 590_490, 531_441, 478_296, 430_467, 387_420,
    348_678, 313_810, 282_429, 254_186, 228_767, 205_891, 185_302, 166_771, 150_094, 135_085,
];

// The weight of a run by its age in quarter seconds; from the twentieth on it has none.
pub fn weight(age: usize) -> u64
    ensures { result ≡ weight_at age }
{
    WEIGHTS.get(age).copied().unwrap_or(0)
}

// A count of runs so many quarters old, times their weight.
fn weighted(count: u32, age: usize) -> u64
    requires { age < 20 }
    ensures is { result ≡ count * weight_of age }
    ensures most { result ≤ 4294967295000000 }
{
    u64::from(count) * weight(age)
}

// The sum of the counts, each times its weight.
fn water_level(counts: &[u32; 20]) -> u64
    ensures { result ≡ water_level counts.now }
{
    let mut level = 0;
    for (age, count) in counts.iter().enumerate() {
        level += weighted(*count, age);
    }
    level
}

// The level is a weighted sum of recent service: spare service is as it were poured in where the level is lowest.
#[derive(Clone, Copy)]
pub struct Water;

impl SharingRule for Water {
    ghost level = { λ _ usage. water_level usage.recent };

    fn level_of(&self, usage: &ServiceRecord) -> u64 {
        water_level(&usage.recent)
    }
}
