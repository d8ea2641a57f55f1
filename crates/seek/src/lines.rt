ghost use Rattle.std.specs.Prelude.{◌≡◌};

use super::request::split;

// The lines of a text, from the first on, without the newlines that end them; a newline at the end of the text ends its last line.
#[derive(Drop)]
pub(crate) struct Lines<'a> {
    left: &'a [u8],
}

impl<'a> Lines<'a> {
    // All lines of a text.
    pub(crate) fn new(text: &'a [u8]) -> Lines<'a>
        ensures { result.left.now ≡ text.now }
    {
        Lines { left: text }
    }
}

impl<'a> Iterator for Lines<'a> {
    ghost use Rattle.std.specs.Iterator.{YieldsFirstRef, item_count};
    ghost use Rattle.seek.specs.Texts.{lines_of};

    type Item = &'a [u8];

    ghost next_gives = { YieldsFirstRef (λ s. lines_of s.left.now) };

    ghost remaining = { item_count (λ s. lines_of s.left.now) };

    fn next(&mut self) -> Option<&'a [u8]> {
        if self.left.is_empty() {
            return None;
        }
        let (line, left) = split(self.left, b'\n');
        self.left = left;
        Some(line)
    }
}
