ghost use Rattle.std.specs.Prelude.{◌≡◌, false, MatchResult};
ghost use Rattle.values.specs.Rates.{limit_allowed, rates_allowed};
ghost use Rattle.values.specs.Refusals.{outside_stream};

use super::Rates;
use crate::fault::ValueFault;

// The highest rate, in runs per second.
const FASTEST: u32 = 100_000;

// Whether a limit may stand beside a reserve.
fn limit_allowed(reserve: u32, limit: Option<u32>) -> bool
    ensures { result ≡ limit_allowed reserve limit }
{
    limit.is_none_or(|limit| (1..=FASTEST).contains(&limit) && reserve <= limit)
}

impl Rates {
    // The rates that three numbers stand for; refused exactly where they are not allowed.
    pub fn new(reserve: u32, limit: Option<u32>, burst: u8) -> Result<Rates, ValueFault>
        ensures { MatchResult result (λ x. (x.reserve ≡ reserve) × (x.limit ≡ limit) × (x.burst ≡ burst)) (λ f. (f ≡ outside_stream) × (rates_allowed reserve limit burst ≡ false)) }
    {
        if reserve <= FASTEST && limit_allowed(reserve, limit) && (1..=64).contains(&burst) {
            Ok(Rates {
                reserve,
                limit,
                burst,
            })
        } else {
            Err(ValueFault::OUTSIDE_STREAM)
        }
    }
}
