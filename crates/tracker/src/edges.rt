ghost use Rattle.std.specs.Prelude.{◌≡◌, ℕ, ◌<◌};
ghost use Rattle.frame.specs.Frames.{framed};
ghost use Rattle.meaning.specs.Lines.{ranked};
ghost use Rattle.meaning.specs.Rows.{row_start, row_end};
ghost use Rattle.search.specs.Views.{total_of, edge_at};
ghost use Rattle.tracker.specs.Edges.{start_from, end_from};

use crate::standing::Standing;
use frame::bound::WindowFrameBound;
use frame::frame::WindowFrame;
use search::rows::{rows_end, rows_start};
use search::sorted::{range_end, range_start};
use transcript::keys::KeyKind;
use transcript::view::Transcript;

// The ROWS window of a line, over all lines below a total.
pub(crate) fn window_by_rows(frame: &WindowFrame, total: u32, line: u32) -> (u32, u32)
    requires { line < total }
    ensures start { result.0 ≡ row_start (framed frame.now).start total line }
    ensures end { result.1 ≡ row_end (framed frame.now).end total line }
{
    let start = rows_start(frame.start_bound(), line, total);
    let end = rows_end(frame.end_bound(), line, total);
    (start as u32, end as u32)
}

// Where a RANGE window starts or ends: at what is reckoned, where its bound has a target.
fn edge_by_order<K: KeyKind, V: Transcript<Key = K>, F: FnOnce() -> u32>(
    view: &V,
    bound: WindowFrameBound,
    reckon: F,
) -> u32
    requires { F.IsAlwaysCallable reckon }
    ensures { (at : ℕ) → ((n : ℕ) → F.post reckon n → n ≡ at) → result ≡ edge_at bound (V.Transcript.starts view.now) (total_of (V.Transcript.starts view.now) (V.Transcript.lines view.now)) at }
{
    match bound {
        WindowFrameBound::UnboundedPreceding => view.first(),
        WindowFrameBound::UnboundedFollowing => view.total(),
        _ => reckon(),
    }
}

// The RANGE window of a line, walked to from the window of the last granted question.
pub(crate) fn window_by_order<K: KeyKind, V: Transcript<Key = K>>(
    standing: &Standing,
    view: &V,
    line: u32,
) -> (u32, u32)
    ensures start { result.0 ≡ start_from standing.now.options (V.Transcript.starts view.now) (ranked K.KeyKind.rank (V.Transcript.lines view.now)) line standing.now.last.start (framed standing.now.frame).start }
    ensures end { result.1 ≡ end_from standing.now.options (V.Transcript.starts view.now) (ranked K.KeyKind.rank (V.Transcript.lines view.now)) line standing.now.last.end (framed standing.now.frame).end }
{
    let (options, last) = (standing.options, &standing.last);
    let (start, end) = (standing.frame.start_bound(), standing.frame.end_bound());
    (
        edge_by_order(
            view,
            start,
            || range_start(view, options, start, line, last.start),
        ),
        edge_by_order(view, end, || range_end(view, options, end, line, last.end)),
    )
}
