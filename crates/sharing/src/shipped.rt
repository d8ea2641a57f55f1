ghost use Rattle.std.specs.Prelude.{◌≡◌};
ghost use Rattle.sharing.specs.Names.{rule_name};
ghost use Rattle.sharing.specs.Rules.{rule_level};

use super::even::Even;
use super::rule::SharingRule;
use super::water::Water;
use usage::ServiceRecord;

// The sharing rules that are chosen by name. (An enum and no closure: the name is read while the program runs.)
#[derive(Clone, Copy, Debug, PartialEq, Eq)]
pub enum Rule {
    Water,
    Even,
}

// A name that is no sharing rule's.
#[derive(Clone, Copy, Debug, PartialEq, Eq)]
pub struct UnknownRule;

impl Rule {
    // The name of the rule. (A method and no conversion: a name is a part of a rule's description.)
    pub fn name(self) -> &'static [u8]
        ensures { result.now ≡ rule_name self }
    {
        match self {
            Rule::Water => b"water",
            Rule::Even => b"even",
        }
    }
}

// The rule of a name, compared byte for byte and whole; refused where no rule has it.
impl TryFrom<&[u8]> for Rule {
    type Error = UnknownRule;

    ghost use Rattle.std.specs.Prelude.{◌≡◌, ok_or};
    ghost use Rattle.sharing.specs.Names.{rule_of};

    ghost try_from_gives = { λ name result. result ≡ ok_or (rule_of name.now) (record {}) };

    fn try_from(name: &[u8]) -> Result<Rule, UnknownRule> {
        if name == b"water".as_slice() {
            Ok(Rule::Water)
        } else if name == b"even".as_slice() {
            Ok(Rule::Even)
        } else {
            Err(UnknownRule)
        }
    }
}

impl SharingRule for Rule {
    ghost level = { rule_level };

    fn level_of(&self, usage: &ServiceRecord) -> u64 {
        match self {
            Rule::Water => Water.level_of(usage),
            Rule::Even => Even.level_of(usage),
        }
    }
}
