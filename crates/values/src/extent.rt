ghost use Rattle.std.specs.Prelude.{◌+◌, ◌≤◌};

pub mod making;

// Sectors of 512 bytes that lie side by side: 1 to 64 of them, none past the last address.
#[derive(Clone, Copy)]
pub struct Extent {
    pub address: u32,
    pub length: u8,
    ghost some: { 1 ≤ length },
    ghost most: { length ≤ 64 },
    ghost ends: { address + length ≤ 4294967295 },
}
