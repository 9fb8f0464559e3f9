ghost use Rattle.std.specs.Prelude.{◌≡◌, ◌<◌, IfOk, OnOk, OnSome, ◌==◌};
ghost use Rattle.std.specs.Iterator.{at_most};
ghost use Rattle.readback.specs.Args.{left};

use crate::command::{Mistake, Trouble, cut};
use std::alloc::Global;
use words::word::Span;

// The words of a command that are still to be read.
#[derive(Drop)]
pub struct Args<'a> {
    rest: &'a [u8],
}

impl<'a> Iterator for Args<'a> {
    type Item = &'a [u8];

    ghost next_gives = { λ old word new. OnSome word (left new < left old) };

    ghost remaining = { λ args. at_most (left args) };

    fn next(&mut self) -> Option<&'a [u8]> {
        if self.rest.is_empty() {
            return None;
        }
        let (word, rest) = cut(self.rest);
        self.rest = rest;
        Some(word)
    }
}

impl<'a> Args<'a> {
    pub fn new(rest: &'a [u8]) -> Args<'a> {
        Args { rest }
    }

    pub fn is_empty(&self) -> bool
        ensures { result ≡ (left self.now == 0) }
    {
        self.rest.is_empty()
    }

    pub fn word(&mut self) -> Result<&'a [u8], Mistake>
        ensures { OnOk result (left self.new < left self.old) }
    {
        self.next().ok_or(Mistake::MissingWord)
    }

    pub fn number(&mut self) -> Result<u64, Mistake>
        ensures { OnOk result (left self.new < left self.old) }
    {
        number_of(self.word()?).ok_or(Mistake::BadNumber)
    }

    pub fn number32(&mut self) -> Result<u32, Mistake>
        ensures { OnOk result (left self.new < left self.old) }
    {
        number32_of(self.word()?)
    }

    // How many entries a table is to have: few enough that it is no burden.
    pub fn size(&mut self) -> Result<usize, Mistake> {
        let n = self.number()?;
        if n > 16777216 {
            return Err(Mistake::TooLarge);
        }
        Ok(n as usize)
    }

    // Two digits to a byte, or a point for no bytes.
    pub fn bytes(&mut self, heap: Global) -> Result<Vec<u8>, Trouble> {
        let word = self.word()?;
        let mut bytes = Vec::new(heap);
        if let b"." = word {
            return Ok(bytes);
        }
        let (pairs, rest) = word.as_chunks::<2>();
        for [high, low] in pairs {
            bytes.push(digit(*high)? * 16 + digit(*low)?)?;
        }
        if !rest.is_empty() || word.is_empty() {
            return Err(Trouble::Script(Mistake::BadBytes));
        }
        Ok(bytes)
    }

    // No word may be left.
    pub fn end(&self) -> Result<(), Mistake> {
        if self.is_empty() {
            Ok(())
        } else {
            Err(Mistake::TooManyWords)
        }
    }
}

// The number of 64 bits that a word of decimal digits writes, if it does.
pub fn number_of(word: &[u8]) -> Option<u64> {
    (Span {
        text: word,
        place: 0,
    })
    .number()
    .ok()
}

pub fn number32_of(word: &[u8]) -> Result<u32, Mistake> {
    let n = number_of(word).ok_or(Mistake::BadNumber)?;
    u32::try_from(n).map_err(|_| Mistake::BadNumber)
}

// The value of a digit to the base 16.
fn digit(b: u8) -> Result<u8, Mistake>
    ensures { IfOk result (λ d. d < 16) }
{
    match b {
        b'0'..=b'9' => Ok(b - b'0'),
        b'a'..=b'f' => Ok(b - b'a' + 10),
        b'A'..=b'F' => Ok(b - b'A' + 10),
        _ => Err(Mistake::BadBytes),
    }
}
