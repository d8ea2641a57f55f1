ghost use Rattle.std.specs.Prelude.{◌≡◌, ◌≤◌, length, sum_by};
ghost use Rattle.service.specs.Rows.{pool_reserve, takes_of, reserves_in};

use crate::rows::{Pool, Session};

// The reserves of some pools, summed.
pub fn reserves_of(pools: &[Pool]) -> u64
    requires { length pools.now ≤ 16 }
    ensures { result ≡ sum_by pool_reserve pools.now }
{
    pools
        .iter()
        .map(|pool| u64::from(pool.account.reserve))
        .sum()
}

// What a row takes of a pool's reserve.
fn takes_of(row: &Session, pool: u8) -> u32
    ensures { result ≡ takes_of pool row.now }
{
    if row.state.is_present() && row.pool == pool {
        row.account.reserve
    } else {
        0
    }
}

// The reserves of a pool's present sessions, summed.
pub fn reserves_in(rows: &[Session], pool: u8) -> u64
    requires { length rows.now ≤ 64 }
    ensures { result ≡ reserves_in pool rows.now }
{
    rows.iter().map(|row| u64::from(takes_of(row, pool))).sum()
}
