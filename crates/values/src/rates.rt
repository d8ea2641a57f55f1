ghost use Rattle.std.specs.Prelude.{◌≡◌, true};
ghost use Rattle.values.specs.Rates.{rates_allowed};

pub mod making;

// What a pool or session may have, in runs per second: the reserve that it surely gets, the limit that it never passes, if one is set,
// and the burst, how many runs it can save up.
#[derive(Clone, Copy)]
pub struct Rates {
    pub reserve: u32,
    pub limit: Option<u32>,
    pub burst: u8,
    ghost allowed: { rates_allowed reserve limit burst ≡ true },
}
