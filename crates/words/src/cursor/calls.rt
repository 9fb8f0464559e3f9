ghost use Rattle.std.specs.Prelude.{◌≡◌, ◌+◌, ◌≤◌, length, drop};
ghost use Rattle.std.specs.List.{prefix_len};
ghost use Rattle.words.specs.Cuts.{CutOf};
ghost use Rattle.words.specs.Tokens.{placed, token};
ghost use Rattle.words.specs.Words.{like, all_words, first, later, words_from, Next};
ghost use Rattle.words.specs.Cursor.{left};

use crate::cursor::Words;
use crate::letters::keyword_of;
use crate::word::{Span, Word};

// The next word from `from` on, empty at the end of the text if there is none, and the place after it.
fn next_span<'a>(text: &'a [u8], from: usize) -> (Span<'a>, usize)
    requires { from ≤ length text.now }
    ensures next { Next (length text.now) (words_from text.now from) (placed result.0) (words_from text.now result.1) }
    ensures bound { result.1 ≤ length text.now }
{
    let start = from + text[from..].iter().take_while(|b| **b == b' ').count();
    let end = start + text[start..].iter().take_while(|b| **b != b' ').count();
    (
        Span {
            text: &text[start..end],
            place: start,
        },
        end,
    )
}

impl<'a> Words<'a> {
    pub fn new(text: &'a [u8]) -> Words<'a>
        ensures words { left result ≡ all_words text.now }
        ensures runs { CutOf text.now (left result).words }
    {
        Words { text, at: 0 }
    }

    // Takes the next word.
    pub fn next(&mut self) -> Word<'a>
        ensures word { token result ≡ first (left self.old) }
        ensures rest { left self.new ≡ later (left self.old) }
    {
        let (span, end) = next_span(self.text, self.at);
        self.at = end;
        match span.text {
            [] => Word::Missing(span),
            [b, ..] => match keyword_of(span.text) {
                Some(k) => Word::Key(k, span),
                None => match *b as char {
                    '0'..='9' => Word::Number(span),
                    _ => Word::Other(span),
                },
            },
        }
    }
}
