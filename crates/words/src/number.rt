ghost use Rattle.std.specs.Prelude.{◌≡◌};
ghost use Rattle.std.specs.Result.{result_ok};
ghost use Rattle.words.specs.Numbers.{longer, numeral, numeral_or, WrittenBy};
ghost use Rattle.words.specs.Tokens.{placed};
ghost use Rattle.words.specs.Faults.{both, fault};

use crate::word::Span;

// What is wrong with one word.
#[derive(Clone, Copy, Debug, PartialEq, Eq)]
pub enum WordError<'a> {
    BadNumber(Span<'a>),
}

// The number `n` with one more digit written after it, if that is a digit and the number has 64 bits.
fn with_digit(n: u64, c: char) -> Option<u64>
    ensures { result ≡ longer n c }
{
    match c {
        '0'..='9' => n.checked_mul(10)?.checked_add(c as u64 - '0' as u64),
        _ => None,
    }
}

// The number that a word of 1 to 20 digits writes, if it has 64 bits.
fn number(text: &[u8]) -> Option<u64>
    ensures { result ≡ numeral text.now }
{
    if text.is_empty() || text.len() > 20 {
        return None;
    }
    let mut n: u64 = 0;
    for b in text {
        n = with_digit(n, *b as char)?;
    }
    Some(n)
}

impl<'a> Span<'a> {
    // The number that the word writes, or the word as the fault.
    pub fn number(self) -> Result<u64, WordError<'a>>
        ensures value { both (λ n. n) fault result ≡ numeral_or (placed self.entry) }
        ensures digits { WrittenBy (placed self.entry).text (result_ok result) }
    {
        number(self.text).ok_or(WordError::BadNumber(self))
    }
}
