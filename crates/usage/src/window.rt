// The window of the last twenty quarter seconds.
ghost use Rattle.std.specs.Prelude.{◌≡◌, ℕ, ◌+◌, ◌<◌};
ghost use Rattle.usage.specs.Usage.{count_at, shifted as shifted_by};

use std::array::from_fn;

// The count at a place, so many quarters later: it stood as many places before, and at the front zeros come in.
fn count_at(counts: &[u32; 20], quarters: u64, place: usize) -> u32
    requires { place < 20 }
    ensures { result ≡ count_at quarters counts.now place }
{
    if (place as u64) < quarters {
        0
    } else {
        counts[place - quarters as usize]
    }
}

// The counts so many quarters later.
pub fn shifted(counts: [u32; 20], quarters: u64) -> [u32; 20]
    ensures is { result ≡ shifted_by quarters counts }
    ensures again { (m : ℕ) → shifted_by m result ≡ shifted_by (m + quarters) counts }
{
    from_fn(|place| count_at(&counts, quarters, place))
}
