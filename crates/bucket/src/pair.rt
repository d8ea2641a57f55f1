ghost use Rattle.std.specs.Prelude.{◌≡◌, true};
ghost use Rattle.bucket.specs.Buckets.{is_pair};

use values::rates::Rates;

pub mod moves;

// The two buckets of an account, in units: the reserve bucket, and the limit bucket where a limit is set.
// The reserve bucket never holds more than the limit bucket.
#[derive(Clone, Copy)]
pub struct BucketPair {
    pub rates: Rates,
    pub reserve: u64,
    pub limit: Option<u64>,
    ghost sound: { is_pair rates.burst rates.limit reserve limit ≡ true },
}
