ghost use Rattle.std.specs.Prelude.{◌≡◌};
ghost use Rattle.stream.specs.Faults.{why_number};

use super::tag::UnknownTag;
use sharing::shipped::UnknownRule;

// Why a stream ends before its end, and the number by which it is told.
#[derive(Clone, Copy, Debug, PartialEq, Eq)]
pub enum StreamWhy {
    CutShort = 1,
    UnknownTag = 2,
    WrongLength = 3,
    RuleName = 4,
}

// The stream's refusal: why, and the offset of the field that is at fault.
#[derive(Clone, Copy, Debug, PartialEq, Eq)]
pub struct StreamFault {
    pub why: StreamWhy,
    pub offset: usize,
}

// The number by which the fault is told.
impl From<StreamWhy> for u8 {
    ghost use Rattle.std.specs.Prelude.{◌≡◌};
    ghost use Rattle.stream.specs.Faults.{why_number};

    ghost from_gives = { λ why number. number ≡ why_number why };

    fn from(why: StreamWhy) -> u8 {
        why as u8
    }
}

// A tag that is none is that fault.
impl From<UnknownTag> for StreamWhy {
    ghost use Rattle.std.specs.Prelude.{◌≡◌};
    ghost use Rattle.stream.specs.declared.fault.StreamWhy.TheVariants as why;

    ghost from_gives = { λ _ result. result ≡ why.UnknownTag };

    fn from(_: UnknownTag) -> StreamWhy {
        StreamWhy::UnknownTag
    }
}

// A rule's name that is none is that fault.
impl From<UnknownRule> for StreamWhy {
    ghost use Rattle.std.specs.Prelude.{◌≡◌};
    ghost use Rattle.stream.specs.declared.fault.StreamWhy.TheVariants as why;

    ghost from_gives = { λ _ result. result ≡ why.RuleName };

    fn from(_: UnknownRule) -> StreamWhy {
        StreamWhy::RuleName
    }
}

impl StreamFault {
    // The number by which the fault is told. (A method and no conversion: a fault is more than its number.)
    pub fn number(self) -> u8
        ensures { result ≡ why_number self.why }
    {
        self.why.into()
    }
}
