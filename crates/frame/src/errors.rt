ghost use Rattle.std.specs.Prelude.{◌≡◌};
ghost use Rattle.frame.specs.declared.errors.BoundError.TheVariants.{Word};
ghost use Rattle.frame.specs.declared.errors.ClauseError.TheVariants.{Bound};
ghost use Rattle.frame.specs.Refusals.{refused};
ghost use Rattle.frame.specs.Faults.{told, told_bound, told_clause};
ghost use Rattle.words.specs.Tokens.{placed};

use crate::clause::ClauseRefusal;
use crate::refusal::{Layer, Reason};
use words::number::WordError;
use words::word::Span;

// What is wrong with a bound, and the word at fault.
#[derive(Clone, Copy, Debug, PartialEq, Eq)]
pub(crate) enum BoundError<'a> {
    Word(WordError<'a>),
    Wrong(Span<'a>),
}

// What is wrong with a clause, and the word at fault.
#[derive(Clone, Copy, Debug, PartialEq, Eq)]
pub(crate) enum ClauseError<'a> {
    TooLong(Span<'a>),
    Bound(BoundError<'a>),
    Wrong(Span<'a>),
    After(Span<'a>),
    Start(Span<'a>),
    End(Span<'a>),
}

impl<'a> From<WordError<'a>> for BoundError<'a> {
    ghost from_gives = { λ e r. r ≡ Word e };

    fn from(e: WordError<'a>) -> BoundError<'a> {
        BoundError::Word(e)
    }
}

impl<'a> From<BoundError<'a>> for ClauseError<'a> {
    ghost from_gives = { λ e r. r ≡ Bound e };

    fn from(e: BoundError<'a>) -> ClauseError<'a> {
        ClauseError::Bound(e)
    }
}

fn refuse<'a>(layer: Layer, reason: Reason, span: Span<'a>) -> ClauseRefusal<'a>
    ensures { told_clause result ≡ refused reason layer (placed span.entry) }
{
    ClauseRefusal {
        refusal: layer.refuse(reason, span.place as u64),
        word: span.text,
    }
}

impl<'a> From<BoundError<'a>> for ClauseRefusal<'a> {
    ghost from_gives = { λ e r. told_clause r ≡ told_bound e };

    fn from(e: BoundError<'a>) -> ClauseRefusal<'a> {
        match e {
            BoundError::Word(WordError::BadNumber(s)) => refuse(Layer::Word, Reason::BadNumber, s),
            BoundError::Wrong(s) => refuse(Layer::Bound, Reason::WrongWord, s),
        }
    }
}

impl<'a> From<ClauseError<'a>> for ClauseRefusal<'a> {
    ghost from_gives = { λ e r. told_clause r ≡ told e };

    fn from(e: ClauseError<'a>) -> ClauseRefusal<'a> {
        let (reason, span) = match e {
            ClauseError::Bound(e) => return ClauseRefusal::from(e),
            ClauseError::TooLong(s) => (Reason::ClauseTooLong, s),
            ClauseError::Wrong(s) => (Reason::WrongWord, s),
            ClauseError::After(s) => (Reason::WordAfterClause, s),
            ClauseError::Start(s) => (Reason::StartUnboundedFollowing, s),
            ClauseError::End(s) => (Reason::EndUnboundedPreceding, s),
        };
        refuse(Layer::Clause, reason, span)
    }
}
