ghost use Rattle.std.specs.Prelude.{◌≡◌, true, false, MatchOption};
ghost use Rattle.bucket.specs.Buckets.{charged_pair, fresh_pair, is_pair, may_send, settled_limit, settled_pair, settled_units};
ghost use Rattle.bucket.specs.Pairs.{units_of};

use super::BucketPair;
use crate::units::{RUN_COST, capacity_of, charged_units, settled_units};
use values::rates::Rates;

// Whether some numbers are those of a pair.
fn is_pair(rates: Rates, reserve: u64, limit: Option<u64>) -> bool
    ensures { result ≡ is_pair rates.burst rates.limit reserve limit }
{
    let most = capacity_of(rates.burst);
    match (rates.limit, limit) {
        (Some(_), Some(units)) => reserve <= units && units <= most,
        (None, None) => reserve <= most,
        _ => false,
    }
}

// The limit bucket of a pair some microseconds later. The reserve bucket does not pass it, since the limit is at least the reserve.
fn settled_limit(pair: BucketPair, micros: u64) -> Option<u64>
    ensures is { result ≡ settled_limit pair.rates.limit pair.rates.burst pair.limit micros }
    ensures pair { is_pair pair.rates.burst pair.rates.limit (settled_units pair.rates.reserve pair.rates.burst pair.reserve micros) result ≡ true }
{
    match (pair.rates.limit, pair.limit) {
        (Some(rate), Some(units)) => Some(settled_units(rate, pair.rates.burst, units, micros)),
        (_, limit) => limit,
    }
}

impl BucketPair {
    // The pair at its start: the limit bucket full, the reserve bucket empty.
    pub fn fresh(rates: Rates) -> BucketPair
        ensures rates { result.rates ≡ rates }
        ensures units { units_of result ≡ fresh_pair rates }
    {
        BucketPair {
            rates,
            reserve: 0,
            limit: rates.limit.map(|_| capacity_of(rates.burst)),
        }
    }

    // The pair that a table's plain numbers stand for; none exactly where they are no pair.
    // (No conversion of one value: the pair is made of rates and two numbers.)
    pub fn from_units(rates: Rates, reserve: u64, limit: Option<u64>) -> Option<BucketPair>
        ensures { MatchOption result (is_pair rates.burst rates.limit reserve limit ≡ false) (λ p. (is_pair rates.burst rates.limit reserve limit ≡ true) × (p.rates ≡ rates) × (p.reserve ≡ reserve) × (p.limit ≡ limit)) }
    {
        if is_pair(rates, reserve, limit) {
            Some(BucketPair {
                rates,
                reserve,
                limit,
            })
        } else {
            None
        }
    }

    // The pair some microseconds later.
    pub fn settled(self, micros: u64) -> BucketPair
        ensures rates { result.rates ≡ self.rates }
        ensures units { units_of result ≡ settled_pair self.rates (units_of self) micros }
    {
        BucketPair {
            rates: self.rates,
            reserve: settled_units(self.rates.reserve, self.rates.burst, self.reserve, micros),
            limit: settled_limit(self, micros),
        }
    }

    // The pair with the cost of a run taken from each bucket, or all that a bucket holds where that is less.
    pub fn charged(self) -> BucketPair
        ensures rates { result.rates ≡ self.rates }
        ensures units { units_of result ≡ charged_pair (units_of self) }
    {
        BucketPair {
            rates: self.rates,
            reserve: charged_units(self.reserve),
            limit: self.limit.map(charged_units),
        }
    }

    // Whether the limit lets a run go: its bucket, where one is set, holds the cost of a run.
    pub fn may_send(&self) -> bool
        ensures { result ≡ may_send self.now.limit }
    {
        self.limit.is_none_or(|units| units >= RUN_COST)
    }
}
