ghost use Rattle.std.specs.Prelude.{◌≡◌};
ghost use Rattle.std.specs.Option.{option_map};
ghost use Rattle.readback.specs.Asks.{ask_of, call_name, call_of, meant_ask};

use crate::command::{cut, is};

// What a line of the script asks of a sitting.
#[derive(Clone, Copy, Debug, PartialEq, Eq)]
pub enum Ask<'a> {
    // to open the next one
    Open(&'a [u8]),
    // of the one that is open
    Of(Call, &'a [u8]),
}

// What a sitting is asked for.
#[derive(Clone, Copy, Debug, PartialEq, Eq)]
pub enum Call {
    Line,
    Feed,
    Window,
    Ask,
    File,
    Table,
    Roll,
    Places,
}

const CALLS: [Call; 8] = [
    Call::Line,
    Call::Feed,
    Call::Window,
    Call::Ask,
    Call::File,
    Call::Table,
    Call::Roll,
    Call::Places,
];

impl Call {
    fn name(self) -> &'static [u8]
        ensures { result.now ≡ call_name self }
    {
        match self {
            Call::Line => b"line",
            Call::Feed => b"feed",
            Call::Window => b"window",
            Call::Ask => b"ask",
            Call::File => b"file",
            Call::Table => b"table",
            Call::Roll => b"roll",
            Call::Places => b"places",
        }
    }
}

// What a sitting is asked for by a word, if it is one of its commands.
fn read_call(word: &[u8]) -> Option<Call>
    ensures { result ≡ call_of word.now }
{
    CALLS.iter().copied().find(|call| word == call.name())
}

// What a line asks of a sitting; nothing where its command is another.
pub fn read_ask(line: &[u8]) -> Option<Ask<'_>>
    ensures { option_map meant_ask result ≡ ask_of line.now }
{
    let (word, behind) = cut(line);
    if is(word, "open") {
        return Some(Ask::Open(behind));
    }
    read_call(word).map(|call| Ask::Of(call, behind))
}
