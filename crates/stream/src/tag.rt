ghost use Rattle.std.specs.Prelude.{◌≡◌};
ghost use Rattle.stream.specs.Tags.{length_lawful};

// What a field says: one tag for each kind of event, and the number that stands for it.
#[derive(Clone, Copy, Debug, PartialEq, Eq)]
pub enum Tag {
    Begin = 1,
    Pool = 2,
    Open = 3,
    Arrival = 4,
    Schedule = 5,
    End = 6,
    Close = 7,
    Work = 8,
    Collect = 9,
}

// A number that stands for no tag.
#[derive(Clone, Copy, Debug, PartialEq, Eq)]
pub struct UnknownTag;

// The number that stands for a tag.
impl From<Tag> for u8 {
    ghost use Rattle.std.specs.Prelude.{◌≡◌};
    ghost use Rattle.stream.specs.Tags.{tag_number};

    ghost from_gives = { λ tag number. number ≡ tag_number tag };

    fn from(tag: Tag) -> u8 {
        tag as u8
    }
}

// The tag that a number stands for; refused exactly where it stands for none.
impl TryFrom<u8> for Tag {
    type Error = UnknownTag;

    ghost use Rattle.stream.specs.Tags.{StandsFor};

    ghost try_from_gives = { StandsFor };

    fn try_from(number: u8) -> Result<Tag, UnknownTag> {
        match number {
            1 => Ok(Tag::Begin),
            2 => Ok(Tag::Pool),
            3 => Ok(Tag::Open),
            4 => Ok(Tag::Arrival),
            5 => Ok(Tag::Schedule),
            6 => Ok(Tag::End),
            7 => Ok(Tag::Close),
            8 => Ok(Tag::Work),
            9 => Ok(Tag::Collect),
            _ => Err(UnknownTag),
        }
    }
}

impl Tag {
    // Whether a value of this tag may have so many bytes.
    pub fn allows(self, length: usize) -> bool
        ensures { result ≡ length_lawful self length }
    {
        match self {
            Tag::Begin => length >= 5,
            Tag::Pool => length == 13 || length == 17,
            Tag::Open => length == 14 || length == 18,
            Tag::Arrival => length == 10,
            Tag::Schedule => length == 8,
            Tag::End | Tag::Close => length == 4,
            Tag::Work | Tag::Collect => length == 0,
        }
    }
}
