ghost use Rattle.std.specs.Prelude.{◌≡◌};
ghost use Rattle.seek.specs.Travel.{gap, travel_from};

use values::io::Run;

// The sectors between two addresses, either way.
fn between(a: u32, b: u32) -> u32
    ensures { result ≡ gap a b }
{
    a.abs_diff(b)
}

// The sectors that an arm, from address 0 on, passes over to serve runs in their order.
pub fn travel(runs: &[Run]) -> u128
    ensures { result ≡ travel_from 0 runs.now }
{
    let mut arm = 0;
    let mut total = 0;
    for run in runs {
        total += u128::from(between(arm, run.extent.address));
        arm = run.extent.end();
    }
    total
}
