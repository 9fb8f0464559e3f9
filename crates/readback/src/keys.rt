use crate::args::{number_of, number32_of};
use crate::command::{Mistake, cut_at};
use std::fmt;
use transcript::keys::KeyKind;
use transcript::keys::elapsed::Elapsed;
use transcript::keys::mark::Mark;
use transcript::keys::plain::Plain;
use transcript::keys::turn::Turn;

// The word for each kind of key.
#[derive(Clone, Copy, Debug, PartialEq, Eq)]
pub enum Kind {
    Plain,
    Elapsed,
    Mark,
    Turn,
}

impl TryFrom<&[u8]> for Kind {
    type Error = Mistake;

    fn try_from(word: &[u8]) -> Result<Kind, Mistake> {
        match word {
            b"plain" => Ok(Kind::Plain),
            b"elapsed" => Ok(Kind::Elapsed),
            b"mark" => Ok(Kind::Mark),
            b"turn" => Ok(Kind::Turn),
            _ => Err(Mistake::BadKind),
        }
    }
}

impl fmt::Display for Kind {
    fn fmt<W: fmt::Write>(&self, f: &mut fmt::Formatter<W>) -> fmt::Result {
        f.write_str(match self {
            Kind::Plain => "plain",
            Kind::Elapsed => "elapsed",
            Kind::Mark => "mark",
            Kind::Turn => "turn",
        })
    }
}

// A key that the script can write.
pub trait ScriptKey: KeyKind + fmt::Display {
    fn read(word: &[u8]) -> Result<Self, Mistake>;
}

// A line's key, or none for an unmarked line.
pub fn read_key<K: ScriptKey>(word: &[u8]) -> Result<Option<K>, Mistake> {
    match word {
        b"-" => Ok(None),
        _ => Ok(Some(K::read(word)?)),
    }
}

impl ScriptKey for Plain {
    fn read(word: &[u8]) -> Result<Plain, Mistake> {
        match word {
            b"*" => Ok(Plain),
            _ => Err(Mistake::BadKey),
        }
    }
}

impl ScriptKey for Elapsed {
    fn read(word: &[u8]) -> Result<Elapsed, Mistake> {
        number_of(word).map(Elapsed).ok_or(Mistake::BadKey)
    }
}

// A signed number: a minus in front of its digits, if it is below 0.
fn signed(word: &[u8]) -> Option<i64> {
    match word {
        [b'-', digits @ ..] => i64::try_from(-i128::from(number_of(digits)?)).ok(),
        _ => i64::try_from(number_of(word)?).ok(),
    }
}

impl ScriptKey for Mark {
    fn read(word: &[u8]) -> Result<Mark, Mistake> {
        signed(word).map(Mark).ok_or(Mistake::BadKey)
    }
}

// The two numbers on either side of a colon.
fn pair(word: &[u8]) -> Option<Turn> {
    let (speaker, question) = cut_at(word, b':');
    Some(Turn {
        speaker: u8::try_from(number_of(speaker)?).ok()?,
        question: number32_of(question).ok()?,
    })
}

impl ScriptKey for Turn {
    fn read(word: &[u8]) -> Result<Turn, Mistake> {
        pair(word).ok_or(Mistake::BadKey)
    }
}
