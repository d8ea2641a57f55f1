ghost use Rattle.std.specs.Prelude.{◌≤◌, length};

pub mod reading;

// Reads a stream field by field; the input is borrowed, and only the position moves.
#[derive(Drop)]
pub struct Reader<'a> {
    input: &'a [u8],
    position: usize,
    ghost inside: { position ≤ length input.now },
}
