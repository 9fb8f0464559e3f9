ghost use Rattle.std.specs.Prelude.{◌≡◌};
ghost use Rattle.words.specs.Letters.{lowered, spelled, name_of, keyword};

#[derive(Clone, Copy, Debug, PartialEq, Eq)]
pub enum Keyword {
    Rows,
    Range,
    Groups,
    Between,
    And,
    Unbounded,
    Current,
    Row,
    Preceding,
    Following,
}

// The small letter of a letter, and any other character as it is. In this project letters are matched
// one by one, both cases in one arm.
fn lower(c: char) -> char
    ensures { result ≡ lowered c }
{
    match c {
        'A' | 'a' => 'a',
        'B' | 'b' => 'b',
        'C' | 'c' => 'c',
        'D' | 'd' => 'd',
        'E' | 'e' => 'e',
        'F' | 'f' => 'f',
        'G' | 'g' => 'g',
        'H' | 'h' => 'h',
        'I' | 'i' => 'i',
        'J' | 'j' => 'j',
        'K' | 'k' => 'k',
        'L' | 'l' => 'l',
        'M' | 'm' => 'm',
        'N' | 'n' => 'n',
        'O' | 'o' => 'o',
        'P' | 'p' => 'p',
        'Q' | 'q' => 'q',
        'R' | 'r' => 'r',
        'S' | 's' => 's',
        'T' | 't' => 't',
        'U' | 'u' => 'u',
        'V' | 'v' => 'v',
        'W' | 'w' => 'w',
        'X' | 'x' => 'x',
        'Y' | 'y' => 'y',
        'Z' | 'z' => 'z',
        other => other,
    }
}

// Whether a word spells a name, which is given in small letters. By recursion: of `eq` over the two
// iterators the check does not find the answer.
fn spells(word: &[u8], name: &[u8]) -> bool
    ensures { result ≡ spelled word.now name.now }
{
    match word {
        [] => name.is_empty(),
        [b, bs @ ..] => match name {
            [] => false,
            [k, ks @ ..] => lower(*b as char) == *k as char && spells(bs, ks),
        },
    }
}

const KEYWORDS: [Keyword; 10] = [
    Keyword::Rows,
    Keyword::Range,
    Keyword::Groups,
    Keyword::Between,
    Keyword::And,
    Keyword::Unbounded,
    Keyword::Current,
    Keyword::Row,
    Keyword::Preceding,
    Keyword::Following,
];

impl Keyword {
    // Its small letters.
    fn name(self) -> &'static [u8]
        ensures { result.now ≡ name_of self }
    {
        match self {
            Keyword::Rows => b"rows",
            Keyword::Range => b"range",
            Keyword::Groups => b"groups",
            Keyword::Between => b"between",
            Keyword::And => b"and",
            Keyword::Unbounded => b"unbounded",
            Keyword::Current => b"current",
            Keyword::Row => b"row",
            Keyword::Preceding => b"preceding",
            Keyword::Following => b"following",
        }
    }
}

// The keyword that a word spells, if any.
pub(crate) fn keyword_of(word: &[u8]) -> Option<Keyword>
    ensures { result ≡ keyword word.now }
{
    KEYWORDS.iter().copied().find(|k| spells(word, k.name()))
}
