ghost use Rattle.std.specs.Prelude.{◌≡◌, ◌+◌, ◌≤◌};
ghost use Rattle.bucket.specs.Buckets.{run_cost, settled_units};
ghost use Rattle.bucket.specs.Due.{DueIsRight, HoldsFrom, ReleaseIsRight, mark_of, release_at, wait_for};
ghost use Rattle.bucket.specs.Pairs.{units_of};

use crate::pair::BucketPair;
use crate::units::RUN_COST;
use order::keys::DueMark;
use values::instant::Instant;

// The microseconds, rounded up, until a bucket holds the cost of a run.
fn wait_for_run(rate: u32, units: u64) -> u64
    requires { 1 ≤ rate }
    ensures { result ≡ wait_for run_cost rate units }
{
    let rate = u64::from(rate);
    (RUN_COST.saturating_sub(units) + (rate - 1)) / rate
}

// The first instant at which a bucket with a rate holds the cost of a run.
fn first_with_run(rate: u32, burst: u8, units: u64, present: Instant) -> u64
    requires { (1 ≤ rate) × (1 ≤ burst) }
    ensures is { result ≡ present.micros + wait_for run_cost rate units }
    ensures right { HoldsFrom (λ micros. run_cost ≤ settled_units rate burst units micros) present.micros result }
{
    present.micros + wait_for_run(rate, units)
}

// The due mark set at the present instant, from the reserve bucket as it is then.
pub fn due_mark(pair: BucketPair, present: Instant, number: u64) -> DueMark
    ensures is { result ≡ mark_of pair.rates.reserve pair.reserve present.micros number }
    ensures right { DueIsRight pair.rates (units_of pair) present.micros result.at }
{
    let reserve = pair.rates.reserve;
    if reserve == 0 {
        DueMark { at: None, number }
    } else {
        let at = first_with_run(reserve, pair.rates.burst, pair.reserve, present);
        DueMark {
            at: Some(at),
            number,
        }
    }
}

// The instant from which the limit lets a run go: the present one where no limit is set or its bucket is not short.
pub fn release_at(pair: BucketPair, present: Instant) -> u64
    ensures is { result ≡ release_at pair.rates.limit pair.limit present.micros }
    ensures right { ReleaseIsRight pair.rates (units_of pair) present.micros result }
{
    match (pair.rates.limit, pair.limit) {
        (Some(limit), Some(units)) => first_with_run(limit, pair.rates.burst, units, present),
        _ => present.micros,
    }
}
