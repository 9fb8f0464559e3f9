ghost use Rattle.std.specs.Prelude.{◌≡◌};
ghost use Rattle.frame.specs.Clause.{clause};
ghost use Rattle.frame.specs.Faults.{answer};
ghost use Rattle.frame.specs.Grammar.{Reads};
ghost use Rattle.frame.specs.Shown.{ShownReadsBack};

use crate::frame::WindowFrame;
use crate::reader::parse;
use crate::refusal::Refusal;

// Why a clause is refused.
#[derive(Clone, Copy, Debug, PartialEq, Eq)]
pub struct ClauseRefusal<'a> {
    pub refusal: Refusal,
    // the word at fault, a part of the clause; empty where it is missing
    pub word: &'a [u8],
}

impl<'a> From<ClauseRefusal<'a>> for Refusal {
    ghost from_gives = { λ e r. r ≡ e.refusal };

    fn from(e: ClauseRefusal<'a>) -> Refusal {
        e.refusal
    }
}

pub fn read_clause<'a>(text: &'a [u8]) -> Result<WindowFrame, ClauseRefusal<'a>>
    ensures value { answer result ≡ clause text.now }
    ensures grammar { Reads text.now result }
    ensures shown { ShownReadsBack }
{
    Ok(parse(text)?)
}
