ghost use Rattle.std.specs.Prelude.{◌≡◌, [], map, IfOk, Some, string_bytes};
ghost use Rattle.frame.specs.Faults.{answer as read_as, told_clause};
ghost use Rattle.frame.specs.Frames.{framed};
ghost use Rattle.frame.specs.Refusals.{refusal_of};
ghost use Rattle.readback.specs.Lines.{yes_no, printed, frame_line, refusal_line, refused_line, clause_line, window_line, mistake_text, error_line};
ghost use Rattle.readback.specs.Troubles.{trouble_line};

use crate::command::{Mistake, Trouble};
use crate::keys::ScriptKey;
use frame::clause::ClauseRefusal;
use frame::frame::WindowFrame;
use frame::refusal::Refusal;
use std::alloc::{AllocError, Global};
use std::fmt;

fn yes_no(b: bool) -> &'static str
    ensures { result.now ≡ yes_no b }
{
    if b { "yes" } else { "no" }
}

// A byte as it is shown: itself if it is visible.
fn printable(b: u8) -> char
    ensures { result ≡ printed b }
{
    if b.is_ascii_graphic() { b as char } else { '?' }
}

// A word as it is shown.
fn shown_word(heap: Global, word: &[u8]) -> Result<String, AllocError>
    ensures { IfOk result (λ s. string_bytes s ≡ map printed word.now) }
{
    let mut text = String::new(heap);
    for b in word {
        text.push(printable(*b))?;
    }
    Ok(text)
}

pub fn frame_line(heap: Global, frame: &WindowFrame) -> Result<String, AllocError>
    ensures { IfOk result (λ s. string_bytes s ≡ frame_line (framed frame.now)) }
{
    let causal = yes_no(frame.is_causal());
    let free = yes_no(frame.is_free());
    format!(in heap; "frame {frame} causal {causal} free {free}")
}

// A refusal that has no word.
pub fn refusal_line(heap: Global, refusal: Refusal) -> Result<String, AllocError>
    ensures { IfOk result (λ s. string_bytes s ≡ refusal_line (refusal_of refusal [])) }
{
    format!(in heap; "{refusal}")
}

fn refused_line(heap: Global, refused: &ClauseRefusal) -> Result<String, AllocError>
    ensures { IfOk result (λ s. string_bytes s ≡ refused_line (told_clause refused.now)) }
{
    let refusal = refusal_line(heap, refused.refusal)?;
    let word = shown_word(heap, refused.word)?;
    format!(in heap; "{refusal} word \"{word}\"")
}

// The answer to a clause.
pub fn clause_line(
    heap: Global,
    reading: &Result<WindowFrame, ClauseRefusal>,
) -> Result<String, AllocError>
    ensures { IfOk result (λ s. string_bytes s ≡ clause_line (read_as reading.now)) }
{
    match reading {
        Ok(frame) => frame_line(heap, frame),
        Err(refused) => refused_line(heap, refused),
    }
}

// A window that was asked for.
pub fn window_line(heap: Global, start: u32, end: u32) -> Result<String, AllocError>
    ensures { IfOk result (λ s. string_bytes s ≡ window_line start end) }
{
    format!(in heap; "window {start} {end}")
}

impl fmt::Display for Mistake {
    ghost output = { λ m. Some (mistake_text m) };

    fn fmt<W: fmt::Write>(&self, f: &mut fmt::Formatter<W>) -> fmt::Result {
        f.write_str(match self {
            Mistake::UnknownCommand => "unknown command",
            Mistake::TooManyWords => "too many words",
            Mistake::MissingWord => "a word is missing",
            Mistake::BadNumber => "not a number that fits",
            Mistake::BadBytes => "bytes have two digits each, or a point for none",
            Mistake::BadKind => "no such kind here",
            Mistake::BadOption => "the order is asc or desc, unmarked lines stand first or last",
            Mistake::BadKey => "not a key of this kind",
            Mistake::NoSuchLine => "no such line",
            Mistake::OutOfOrder => "the lines are out of order",
            Mistake::TooLarge => "a table has at most 16777216 entries",
            Mistake::NoFrame => "no frame: read a clause first",
            Mistake::NotHere => "not with these lines",
            Mistake::BadHolder => "lines are held by a roll or packed",
            Mistake::NoMemory => "out of memory",
        })
    }
}

impl fmt::Display for Trouble {
    ghost output = { λ t. Some (trouble_line t) };

    fn fmt<W: fmt::Write>(&self, f: &mut fmt::Formatter<W>) -> fmt::Result {
        match self {
            Trouble::Refused(refusal) => write!(f, "{refusal}"),
            Trouble::Script(mistake) => write!(f, "error {mistake}"),
        }
    }
}

// The answer to a mistake in the script.
pub fn error_line(heap: Global, mistake: Mistake) -> Result<String, AllocError>
    ensures { IfOk result (λ s. string_bytes s ≡ error_line mistake) }
{
    format!(in heap; "error {mistake}")
}

// Every entry of a table, each behind a space.
pub fn push_numbers(text: &mut String, numbers: &[u32]) -> Result<(), AllocError> {
    for n in numbers {
        write!(text, " {n}")?;
    }
    Ok(())
}

// A line's key behind a space.
pub fn push_key<K: ScriptKey>(text: &mut String, key: Option<K>) -> Result<(), AllocError> {
    match key {
        Some(key) => write!(text, " {key}"),
        None => text.push_str(" -"),
    }
}

// Every line's key, each behind a space.
pub fn push_keys<K: ScriptKey>(text: &mut String, keys: &[Option<K>]) -> Result<(), AllocError> {
    for key in keys {
        push_key(text, *key)?;
    }
    Ok(())
}
