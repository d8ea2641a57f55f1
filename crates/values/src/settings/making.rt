ghost use Rattle.std.specs.Prelude.{◌≡◌, false, MatchResult};
ghost use Rattle.values.specs.Refusals.{outside_stream};
ghost use Rattle.values.specs.Settings.{settings_allowed};

use super::Settings;
use crate::fault::ValueFault;

impl Settings {
    // The settings that two numbers stand for; refused exactly where they are not allowed.
    pub fn new(throughput: u32, cap: u8) -> Result<Settings, ValueFault>
        ensures { MatchResult result (λ s. (s.throughput ≡ throughput) × (s.cap ≡ cap)) (λ f. (f ≡ outside_stream) × (settings_allowed throughput cap ≡ false)) }
    {
        if !(1..=100_000).contains(&throughput) || !(1..=32).contains(&cap) {
            return Err(ValueFault::OUTSIDE_STREAM);
        }
        Ok(Settings { throughput, cap })
    }
}
