use frame::clause::read_clause;
use frame::frame::WindowFrame;
use meaning::options::SortOptions;
use transcript::keys::KeyKind;
use transcript::keys::elapsed::Elapsed;
use transcript::keys::mark::Mark;
use transcript::keys::plain::Plain;
use transcript::keys::turn::Turn;
use words::cursor::Words;
use words::word::Word;

// A key that is recorded as a number.
pub trait Recorded: KeyKind {
    fn of(n: u64) -> Self;
}

impl Recorded for Plain {
    fn of(_n: u64) -> Plain {
        Plain
    }
}

impl Recorded for Elapsed {
    fn of(n: u64) -> Elapsed {
        Elapsed(n)
    }
}

// Numbers from 2^63 on are those below 0.
impl Recorded for Mark {
    fn of(n: u64) -> Mark {
        Mark(i64::from_le_bytes(n.to_le_bytes()))
    }
}

// The speaker stands above the question.
impl Recorded for Turn {
    fn of(n: u64) -> Turn {
        Turn {
            speaker: (n >> 32 & 255) as u8,
            question: (n & 4294967295) as u32,
        }
    }
}

// How a sitting begins.
#[derive(Clone, Copy, Debug, PartialEq, Eq)]
pub struct Begin {
    pub kind: u64,
    pub options: SortOptions,
    pub lines: usize,
    pub frame: WindowFrame,
}

// A line of the sample.
#[derive(Clone, Copy, Debug, PartialEq, Eq)]
pub enum Step {
    // open KIND FALLING FIRST LINES CLAUSE
    Open(Begin),
    // line KEY
    Line(Option<u64>),
    // window LINE START END
    Window(u32, (u32, u32)),
    // empty LINE: its window holds no line
    Empty(u32),
    // file LINE
    File(u32),
}

fn number(words: &mut Words) -> Option<u64> {
    match words.next() {
        Word::Number(span) => span.number().ok(),
        _ => None,
    }
}

fn number32(words: &mut Words) -> Option<u32> {
    u32::try_from(number(words)?).ok()
}

// What stands behind `open`: four numbers, and a clause up to the end of the text.
fn read_begin(text: &[u8], words: &mut Words) -> Option<Begin> {
    let kind = number(words)?;
    let options = SortOptions {
        descending: number(words)? == 1,
        unmarked_first: number(words)? == 1,
    };
    let lines = usize::from(u16::try_from(number(words)?).ok()?);
    let frame = match words.next() {
        Word::Key(_, span) => read_clause(text.get(span.place..)?).ok()?,
        _ => return None,
    };
    Some(Begin {
        kind,
        options,
        lines,
        frame,
    })
}

// Reads a line of the sample, none where it is no such line.
pub fn read_step(text: &[u8]) -> Option<Step> {
    let mut words = Words::new(text);
    let Word::Other(name) = words.next() else {
        return None;
    };
    match name.text {
        b"open" => Some(Step::Open(read_begin(text, &mut words)?)),
        b"line" => Some(Step::Line(number(&mut words))),
        b"window" => {
            let line = number32(&mut words)?;
            Some(Step::Window(line, (number32(&mut words)?, number32(&mut words)?)))
        }
        b"empty" => Some(Step::Empty(number32(&mut words)?)),
        b"file" => Some(Step::File(number32(&mut words)?)),
        _ => None,
    }
}
