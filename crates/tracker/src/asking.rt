ghost use Rattle.std.specs.Prelude.{◌≡◌, ℕ, ◌+◌, ◌-◌, ◌<◌, ◌≤◌, length, take, slice_index};
ghost use Rattle.frame.specs.Frames.{framed};
ghost use Rattle.search.specs.Views.{total_of};
ghost use Rattle.tracker.specs.Ends.{Held};
ghost use Rattle.meaning.specs.Lines.{ranked};
ghost use Rattle.tracker.specs.Asking.{Asks, Finds, Ready};
ghost use Rattle.tracker.specs.States.{state};
ghost use Rattle.tracker.specs.Walks.{all_ends};

use crate::edges::{window_by_order, window_by_rows};
use crate::groups::Question;
use crate::reading::Turns;
use crate::standing::Standing;
use crate::tracker::TurnTable;
use crate::walk::write_on;
use frame::bound::WindowFrameUnits;
use frame::frame::WindowFrame;
use transcript::keys::KeyKind;
use transcript::view::Transcript;

// A window under GROUPS, and where the table then stands: entries in use, and the entry of the line's
// turn.
#[derive(Clone, Copy)]
pub(crate) struct Answered {
    pub(crate) start: u32,
    pub(crate) end: u32,
    pub(crate) live: usize,
    pub(crate) at: usize,
}

// Asks for the window of a line under GROUPS. Where the table is too short, the entries needed are the
// answer, and nothing is written.
pub(crate) fn ask_groups<K: KeyKind, V: Transcript<Key = K>>(
    table: &mut [u64],
    live: usize,
    at: usize,
    view: &V,
    frame: &WindowFrame,
    line: u32,
) -> Result<Answered, usize>
    requires room { live ≤ length table.old }
    requires held { Held (V.Transcript.starts view.now) (total_of (V.Transcript.starts view.now) (V.Transcript.lines view.now)) (take live table.old) }
    requires low { V.Transcript.starts view.now ≤ line }
    requires high { line < total_of (V.Transcript.starts view.now) (V.Transcript.lines view.now) }
    requires passed { (k : ℕ) → k < at → slice_index table.old k ≤ line }
    requires behind { at ≤ live - 1 }
    ensures { Asks (framed frame.now) (V.Transcript.starts view.now) (total_of (V.Transcript.starts view.now) (V.Transcript.lines view.now)) (all_ends K.KeyKind.rank (V.Transcript.starts view.now) (V.Transcript.lines view.now) table.old live) live line table.old result table.new }
{
    let total = view.total();
    let question = Question {
        view,
        line,
        used: &table[..live],
    };
    let entry = question.entry(at);
    let needed = question.entries_needed(entry, frame);
    let from = question.last_held();
    if needed > table.len() {
        return Err(needed);
    }
    write_on(table, view, from, needed);
    let turns = Turns {
        ends: &table[..needed],
        first: view.first(),
        total,
    };
    Ok(Answered {
        start: turns.edge(frame.start_bound(), entry),
        end: turns.edge(frame.end_bound(), entry + 1),
        live: needed,
        at: entry,
    })
}

// The window of a line whose question has passed its checks. Where the turn table is too short, the
// entries needed are the answer, and nothing is written.
pub(crate) fn find<K: KeyKind, V: Transcript<Key = K>>(
    standing: &Standing,
    table: &mut [u64],
    view: &V,
    line: u32,
) -> Result<Answered, usize>
    requires { Ready table.old standing.now.live standing.now.at (V.Transcript.starts view.now) (total_of (V.Transcript.starts view.now) (V.Transcript.lines view.now)) line }
    ensures { Finds (framed standing.now.frame).units (state standing.now table.old) (V.Transcript.starts view.now) (ranked K.KeyKind.rank (V.Transcript.lines view.now)) line result table.new }
{
    let frame = standing.frame;
    let (start, end) = match frame.units() {
        WindowFrameUnits::Rows => window_by_rows(&frame, view.total(), line),
        WindowFrameUnits::Range => window_by_order(standing, view, line),
        WindowFrameUnits::Groups => {
            return ask_groups(table, standing.live, standing.at, view, &frame, line);
        }
    };
    Ok(Answered {
        start,
        end,
        live: 0,
        at: 0,
    })
}

impl<'a> TurnTable<'a> {
    // The same over the caller's table.
    pub(crate) fn find<K: KeyKind, V: Transcript<Key = K>>(
        &mut self,
        standing: &Standing,
        view: &V,
        line: u32,
    ) -> Result<Answered, usize>
        requires { Ready self.old.ends.now standing.now.live standing.now.at (V.Transcript.starts view.now) (total_of (V.Transcript.starts view.now) (V.Transcript.lines view.now)) line }
        ensures found { Finds (framed standing.now.frame).units (state standing.now self.old.ends.now) (V.Transcript.starts view.now) (ranked K.KeyKind.rank (V.Transcript.lines view.now)) line result self.new.ends.now }
        ensures lent { self.new.ends.ghost_name ≡ self.old.ends.ghost_name }
    {
        find(standing, self.ends, view, line)
    }
}
