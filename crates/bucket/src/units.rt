ghost use Rattle.std.specs.Prelude.{◌≡◌};
ghost use Rattle.bucket.specs.Buckets.{capacity, charged_units, settled_units};

// The units that one run costs.
pub const RUN_COST: u64 = 1_000_000;

// The most units that a bucket of so large a burst holds.
pub fn capacity_of(burst: u8) -> u64
    ensures { result ≡ capacity burst }
{
    u64::from(burst) * RUN_COST
}

// What a bucket holds some microseconds later. A sum past the last number is above the most that a bucket holds all the same.
pub fn settled_units(rate: u32, burst: u8, units: u64, micros: u64) -> u64
    ensures { result ≡ settled_units rate burst units micros }
{
    u64::from(rate)
        .saturating_mul(micros)
        .saturating_add(units)
        .min(capacity_of(burst))
}

// What the cost of a run leaves in a bucket.
pub fn charged_units(units: u64) -> u64
    ensures { result ≡ charged_units units }
{
    units.saturating_sub(RUN_COST)
}
