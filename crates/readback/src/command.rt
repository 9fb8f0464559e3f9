ghost use Rattle.std.specs.Prelude.{◌≡◌};
ghost use Rattle.std.specs.Str.{bytes_eq};
ghost use Rattle.readback.specs.Commands.{command, meant, before_mark, behind_mark, head, rest, passed_over};

use frame::refusal::Refusal;
use std::alloc::{AllocError, AllocFailed};

// What a line of the script asks for.
#[derive(Clone, Copy, Debug, PartialEq, Eq)]
pub enum Command<'a> {
    Clause(&'a [u8]),
    Reverse,
    Scan(&'a [u8]),
    View(&'a [u8]),
    Explain(&'a [u8]),
}

// A mistake in the script itself.
#[derive(Clone, Copy, Debug, PartialEq, Eq)]
pub enum Mistake {
    UnknownCommand,
    TooManyWords,
    MissingWord,
    BadNumber,
    BadBytes,
    BadKind,
    BadOption,
    BadKey,
    NoSuchLine,
    OutOfOrder,
    TooLarge,
    NoFrame,
    NotHere,
    BadHolder,
    NoMemory,
}

// Why a command has no answer of its own.
#[derive(Clone, Copy, Debug, PartialEq, Eq)]
pub enum Trouble {
    Script(Mistake),
    Refused(Refusal),
}

impl From<Refusal> for Trouble {
    fn from(e: Refusal) -> Trouble {
        Trouble::Refused(e)
    }
}

impl From<AllocError> for Trouble {
    fn from(_e: AllocError) -> Trouble {
        Trouble::Script(Mistake::NoMemory)
    }
}

impl<T: Drop> From<AllocFailed<T>> for Trouble {
    fn from(_e: AllocFailed<T>) -> Trouble {
        Trouble::Script(Mistake::NoMemory)
    }
}

impl From<Mistake> for Trouble {
    fn from(e: Mistake) -> Trouble {
        Trouble::Script(e)
    }
}

// What stands before the first `mark`, and what stands behind it: nothing where there is none.
pub fn cut_at(line: &[u8], mark: u8) -> (&[u8], &[u8])
    ensures word { result.0.now ≡ before_mark mark line.now }
    ensures behind { result.1.now ≡ behind_mark mark line.now }
{
    match line.iter().position(|b| *b == mark) {
        Some(i) => (&line[..i], &line[i + 1..]),
        None => (line, &line[line.len()..]),
    }
}

// A line's first word, and what stands behind the space after it.
pub fn cut(line: &[u8]) -> (&[u8], &[u8])
    ensures word { result.0.now ≡ head line.now }
    ensures behind { result.1.now ≡ rest line.now }
{
    cut_at(line, b' ')
}

pub fn is(word: &[u8], name: &str) -> bool
    ensures { result ≡ bytes_eq word.now name.now }
{
    word == name.as_bytes()
}

// Whether a line asks for nothing.
fn is_passed_over(line: &[u8]) -> bool
    ensures { result ≡ passed_over line.now }
{
    match line {
        [] => true,
        [b, ..] => *b == b'#',
    }
}

// Reads one line of the script: nothing where it is empty or a comment. Of a `match` on byte strings a case
// stays open for each byte at which a word may part from a name, so the names are asked for in turn.
pub fn read_command(line: &[u8]) -> Result<Option<Command<'_>>, Mistake>
    ensures { meant result ≡ command line.now }
{
    if is_passed_over(line) {
        return Ok(None);
    }
    let (word, behind) = cut(line);
    if is(word, "clause") {
        Ok(Some(Command::Clause(behind)))
    } else if is(word, "reverse") {
        if behind.is_empty() {
            Ok(Some(Command::Reverse))
        } else {
            Err(Mistake::TooManyWords)
        }
    } else if is(word, "scan") {
        Ok(Some(Command::Scan(behind)))
    } else if is(word, "view") {
        Ok(Some(Command::View(behind)))
    } else if is(word, "explain") {
        Ok(Some(Command::Explain(behind)))
    } else {
        Err(Mistake::UnknownCommand)
    }
}
