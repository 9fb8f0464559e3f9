ghost use Rattle.std.specs.Prelude.{◌≡◌};
ghost use Rattle.words.specs.Tokens.{placed, token, span_of};

use crate::letters::Keyword;

// A part of the clause, and the place where it begins.
#[derive(Clone, Copy, Debug, PartialEq, Eq)]
pub struct Span<'a> {
    pub text: &'a [u8],
    pub place: usize,
}

// The next word of a clause, by what it can be.
#[derive(Clone, Copy, Debug, PartialEq, Eq)]
pub enum Word<'a> {
    Key(Keyword, Span<'a>),
    // it begins with a digit
    Number(Span<'a>),
    Other(Span<'a>),
    // no word is left: the empty part at the end of the clause
    Missing(Span<'a>),
}

impl<'a> Word<'a> {
    pub fn span(self) -> Span<'a>
        ensures { placed result ≡ span_of (token self.entry) }
    {
        match self {
            Word::Key(_, s) | Word::Number(s) | Word::Other(s) | Word::Missing(s) => s,
        }
    }
}
