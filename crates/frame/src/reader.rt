ghost use Rattle.std.specs.Prelude.{◌≡◌};
ghost use Rattle.words.specs.Cursor.{left};
ghost use Rattle.words.specs.Faults.{both};
ghost use Rattle.words.specs.Tokens.{placed, token};
ghost use Rattle.frame.specs.Frames.{framed};
ghost use Rattle.frame.specs.Clause.{unit, expected, joint, side, bound, pair, extent, judged, clause};
ghost use Rattle.frame.specs.Faults.{told, told_bound, said};

use crate::bound::{WindowFrameBound, WindowFrameUnits};
use crate::errors::{BoundError, ClauseError};
use crate::frame::WindowFrame;
use words::cursor::Words;
use words::letters::Keyword;
use words::word::{Span, Word};

// A bound, and its first word.
#[derive(Clone, Copy)]
pub(crate) struct ReadBound<'a> {
    bound: WindowFrameBound,
    at: Span<'a>,
}

// PRECEDING or FOLLOWING.
fn read_side<'a>(
    words: &mut Words<'a>,
    before: WindowFrameBound,
    after: WindowFrameBound,
) -> Result<WindowFrameBound, BoundError<'a>>
    ensures { both (λ b. (b, left words.new)) told_bound result ≡ side before after (left words.old) }
{
    let word = words.next();
    match word {
        Word::Key(Keyword::Preceding, _) => Ok(before),
        Word::Key(Keyword::Following, _) => Ok(after),
        _ => Err(BoundError::Wrong(word.span())),
    }
}

// A keyword that has to stand here, or the word that does.
fn read_keyword<'a>(words: &mut Words<'a>, wanted: Keyword) -> Result<(), Span<'a>>
    ensures { both (λ _. left words.new) placed result ≡ expected wanted (left words.old) }
{
    match words.next() {
        Word::Key(keyword, _) if keyword == wanted => Ok(()),
        word => Err(word.span()),
    }
}

// A bound whose first word has been taken.
fn read_bound<'a>(first: Word<'a>, words: &mut Words<'a>) -> Result<ReadBound<'a>, BoundError<'a>>
    ensures { both (λ b. (said b, left words.new)) told_bound result ≡ bound (token first.entry) (left words.old) }
{
    let bound = match first {
        Word::Key(Keyword::Unbounded, _) => {
            read_side(
                words,
                WindowFrameBound::UnboundedPreceding,
                WindowFrameBound::UnboundedFollowing,
            )?
        }
        Word::Key(Keyword::Current, _) => {
            read_keyword(words, Keyword::Row).map_err(BoundError::Wrong)?;
            WindowFrameBound::CurrentRow
        }
        Word::Number(span) => {
            let n = span.number()?;
            read_side(
                words,
                WindowFrameBound::Preceding(n),
                WindowFrameBound::Following(n),
            )?
        }
        _ => return Err(BoundError::Wrong(first.span())),
    };
    Ok(ReadBound {
        bound,
        at: first.span(),
    })
}

fn read_unit<'a>(words: &mut Words<'a>) -> Result<WindowFrameUnits, ClauseError<'a>>
    ensures { both (λ u. (u, left words.new)) told result ≡ unit (left words.old) }
{
    let word = words.next();
    match word {
        Word::Key(Keyword::Rows, _) => Ok(WindowFrameUnits::Rows),
        Word::Key(Keyword::Range, _) => Ok(WindowFrameUnits::Range),
        Word::Key(Keyword::Groups, _) => Ok(WindowFrameUnits::Groups),
        _ => Err(ClauseError::Wrong(word.span())),
    }
}

// The AND between two bounds.
fn read_and<'a>(words: &mut Words<'a>) -> Result<(), ClauseError<'a>>
    ensures { both (λ _. left words.new) told result ≡ joint (left words.old) }
{
    read_keyword(words, Keyword::And).map_err(ClauseError::Wrong)
}

// Bound AND bound.
fn read_pair<'a>(words: &mut Words<'a>) -> Result<(ReadBound<'a>, ReadBound<'a>), ClauseError<'a>>
    ensures { both (λ x. (said x.0, said x.1, left words.new)) told result ≡ pair (left words.old) }
{
    let first = words.next();
    let start = read_bound(first, words)?;
    read_and(words)?;
    let first = words.next();
    let end = read_bound(first, words)?;
    Ok((start, end))
}

// One bound, or BETWEEN bound AND bound. A missing end is CURRENT ROW.
fn read_extent<'a>(words: &mut Words<'a>) -> Result<(ReadBound<'a>, ReadBound<'a>), ClauseError<'a>>
    ensures { both (λ x. (said x.0, said x.1, left words.new)) told result ≡ extent (left words.old) }
{
    let word = words.next();
    if let Word::Key(Keyword::Between, _) = word {
        return read_pair(words);
    }
    let start = read_bound(word, words)?;
    let end = ReadBound {
        bound: WindowFrameBound::CurrentRow,
        at: start.at,
    };
    Ok((start, end))
}

// What is asked of a clause once its bounds have been read.
fn judge<'a>(
    words: &mut Words<'a>,
    units: WindowFrameUnits,
    start: ReadBound<'a>,
    end: ReadBound<'a>,
) -> Result<WindowFrame, ClauseError<'a>>
    ensures { both framed told result ≡ judged units (said start.entry, said end.entry, left words.old) }
{
    let word = words.next();
    let Word::Missing(_) = word else {
        return Err(ClauseError::After(word.span()));
    };
    if let WindowFrameBound::UnboundedFollowing = start.bound {
        return Err(ClauseError::Start(start.at));
    }
    if let WindowFrameBound::UnboundedPreceding = end.bound {
        return Err(ClauseError::End(end.at));
    }
    Ok(WindowFrame {
        units,
        start_bound: start.bound,
        end_bound: end.bound,
    })
}

pub(crate) fn parse<'a>(text: &'a [u8]) -> Result<WindowFrame, ClauseError<'a>>
    ensures { both framed told result ≡ clause text.now }
{
    if text.len() > 256 {
        return Err(ClauseError::TooLong(Span {
            text: &text[0..0],
            place: 256,
        }));
    }
    let mut words = Words::new(text);
    let units = read_unit(&mut words)?;
    let (start, end) = read_extent(&mut words)?;
    judge(&mut words, units, start, end)
}
