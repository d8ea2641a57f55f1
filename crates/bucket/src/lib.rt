// Token buckets: the pair of an account, its due mark and release, and the law of windows for every limited account.
#![tactic(auto)]

pub mod due;
pub mod laws;
pub mod pair;
mod units;
