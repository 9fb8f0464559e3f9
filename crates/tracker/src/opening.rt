ghost use Rattle.std.specs.Prelude.{◌≡◌};
ghost use Rattle.frame.specs.Frames.{framed};
ghost use Rattle.sitting.specs.Sittings.{SittingLaw};
ghost use Rattle.sitting.specs.State.{fresh};
ghost use Rattle.tracker.specs.Openings.{opening, opening_of, told, read_opening};
ghost use Rattle.tracker.specs.Trackers.{state_of};

use crate::standing::{Grant, Standing};
use crate::tracker::{Tracker, TurnTable};
use frame::clause::read_clause;
use frame::frame::WindowFrame;
use frame::refusal::Refusal;
use meaning::options::SortOptions;
use search::opening::check_opening;
use std::marker::PhantomData;
use transcript::keys::KeyKind;

// A frame that can be opened on keys of kind K, and the order of lines.
#[derive(Clone, Copy)]
pub struct Opening<K> {
    frame: WindowFrame,
    options: SortOptions,
    kind: PhantomData<K>,
}

// Opens a frame on keys of kind K, or says why that cannot be.
pub fn open<K: KeyKind>(frame: &WindowFrame, options: SortOptions) -> Result<Opening<K>, Refusal>
    ensures { opening result ≡ opening_of (framed frame.now) options K.KeyKind.columns }
{
    check_opening(frame, K::column_count())?;
    Ok(Opening {
        frame: *frame,
        options,
        kind: PhantomData,
    })
}

// Reads a clause and opens its frame.
pub fn open_clause<K: KeyKind>(text: &[u8], options: SortOptions) -> Result<Opening<K>, Refusal>
    ensures { told (opening result) ≡ read_opening text.now options K.KeyKind.columns }
{
    let frame = read_clause(text)?;
    open(&frame, options)
}

impl<K: KeyKind> Opening<K> {
    // A fresh tracker over the caller's turn table, which stays as it is. What is promised of every
    // sitting on it is `SittingLaw`.
    pub fn track<'a>(self, table: &'a mut [u64]) -> Tracker<'a, K>
        ensures fresh { state_of result ≡ fresh self.options (framed self.frame) table.old }
        ensures lent { result.table.ends.ghost_name ≡ table.entry.ghost_name }
        ensures sittings { SittingLaw }
    {
        let standing = Standing {
            frame: self.frame,
            options: self.options,
            last: Grant {
                line: 0,
                start: 0,
                end: 0,
                total: 0,
            },
            filed: 0,
            live: 0,
            at: 0,
        };
        Tracker {
            standing,
            table: TurnTable { ends: table },
            kind: PhantomData,
        }
    }
}
