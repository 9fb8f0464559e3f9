ghost use Rattle.std.specs.Prelude.{◌≡◌, ℕ, ◌+◌, ◌≤◌, length, Bool, None};
ghost use Rattle.frame.specs.Frames.{framed};
ghost use Rattle.meaning.specs.Clause.{same_line};
ghost use Rattle.meaning.specs.Counts.{how_many_from};
ghost use Rattle.meaning.specs.Lines.{ranked};
ghost use Rattle.meaning.specs.Rows.{rows_start, rows_end};
ghost use Rattle.meaning.specs.Turns.{turn_of, groups_start, groups_end};
ghost use Rattle.search.specs.Tests.{ComputesAgainst};
ghost use Rattle.search.specs.Views.{total_of, edge_at, window_at};

use crate::groups::{turn_number, turn_start};
use crate::order::{leads, reaches};
use crate::rows::rows_edge;
use crate::walks::how_many_pass;
use frame::bound::{WindowFrameBound, WindowFrameUnits};
use frame::frame::WindowFrame;
use meaning::options::SortOptions;
use transcript::keys::KeyKind;
use transcript::view::Transcript;

// Where the ROWS window of a row starts; by the same bound that of the row before ends there.
fn row_edge<K: KeyKind, V: Transcript<Key = K>>(view: &V, bound: WindowFrameBound, row: u64) -> u32
    requires { row ≤ length (V.Transcript.lines view.now) }
    ensures start { result ≡ V.Transcript.starts view.now + rows_start bound (ranked K.KeyKind.rank (V.Transcript.lines view.now)) row }
    ensures end { (i : ℕ) → row ≡ i + 1 → result ≡ V.Transcript.starts view.now + rows_end bound (ranked K.KeyKind.rank (V.Transcript.lines view.now)) i }
{
    let first = view.first();
    let rows = view.total() - first;
    (u64::from(first) + rows_edge(bound, row, rows)) as u32
}

// Where a RANGE window starts or ends: as many lines on as pass a test against `line`.
fn order_edge<
    K: KeyKind,
    V: Transcript<Key = K>,
    F: Fn(SortOptions, WindowFrameBound, Option<K>, Option<K>) -> bool,
>(view: &V, options: SortOptions, bound: WindowFrameBound, line: u32, passes: F) -> u32
    requires { F.IsAlwaysCallable passes }
    ensures { (p : ℕ → Bool) → ComputesAgainst (F.post passes) (V.Transcript.starts view.now) (V.Transcript.lines view.now) options bound line p (V.Transcript.starts view.now) → result ≡ edge_at bound (V.Transcript.starts view.now) (total_of (V.Transcript.starts view.now) (V.Transcript.lines view.now)) (V.Transcript.starts view.now + how_many_from p (V.Transcript.starts view.now) (length (V.Transcript.lines view.now))) }
{
    let (first, total) = (view.first(), view.total());
    match bound {
        WindowFrameBound::UnboundedPreceding => first,
        WindowFrameBound::UnboundedFollowing => total,
        _ => {
            let asked = view.line(line);
            let passing = how_many_pass(
                first,
                total,
                |n| passes(options, bound, view.line(n), asked),
            );
            first + passing
        }
    }
}

// Where the GROUPS window of a turn's lines starts; by the same bound that of the turn before ends there.
fn turn_edge<K: KeyKind, V: Transcript<Key = K>>(
    view: &V,
    bound: WindowFrameBound,
    turn: u64,
) -> u32
    ensures start { (i : ℕ) → turn ≡ turn_of None same_line (ranked K.KeyKind.rank (V.Transcript.lines view.now)) i → result ≡ V.Transcript.starts view.now + groups_start None same_line bound (ranked K.KeyKind.rank (V.Transcript.lines view.now)) i }
    ensures end { (i : ℕ) → turn ≡ turn_of None same_line (ranked K.KeyKind.rank (V.Transcript.lines view.now)) i + 1 → result ≡ V.Transcript.starts view.now + groups_end None same_line bound (ranked K.KeyKind.rank (V.Transcript.lines view.now)) i }
{
    let (first, total) = (view.first(), view.total());
    match bound {
        WindowFrameBound::UnboundedPreceding => first,
        WindowFrameBound::Preceding(n) => turn_start(view, turn.saturating_sub(n)),
        WindowFrameBound::CurrentRow => turn_start(view, turn),
        WindowFrameBound::Following(n) => turn_start(view, turn.saturating_add(n)),
        WindowFrameBound::UnboundedFollowing => total,
    }
}

// The window of a line over just the lines of a view, reckoned plainly from all of them; none where
// the line is not one of them.
pub fn window_of<K: KeyKind, V: Transcript<Key = K>>(
    view: &V,
    frame: &WindowFrame,
    options: SortOptions,
    line: u32,
) -> Option<(u32, u32)>
    ensures { result ≡ window_at K.KeyKind.rank (V.Transcript.starts view.now) (V.Transcript.lines view.now) options (framed frame.now) line }
{
    let first = view.first();
    if line < first || line >= view.total() {
        return None;
    }
    let (start, end) = (frame.start_bound(), frame.end_bound());
    Some(match frame.units() {
        WindowFrameUnits::Rows => {
            let row = u64::from(line - first);
            (row_edge(view, start, row), row_edge(view, end, row + 1))
        }
        WindowFrameUnits::Range => (
            order_edge(view, options, start, line, leads),
            order_edge(view, options, end, line, reaches),
        ),
        WindowFrameUnits::Groups => {
            let turn = u64::from(turn_number(view, line));
            (turn_edge(view, start, turn), turn_edge(view, end, turn + 1))
        }
    })
}
