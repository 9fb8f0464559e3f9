ghost use Rattle.std.specs.Prelude.{◌≡◌, ◌<◌, ◌≤◌};
ghost use Rattle.search.specs.Views.{turn_at, turn_begins, RunEnd};

use crate::order::is_same;
use crate::walks::{first_that_fails, how_many_pass, is_alike};
use transcript::keys::KeyKind;
use transcript::view::Transcript;

// The end of the run of like lines that holds line `n`; `n` itself where it is past the last line.
pub fn run_end<K: KeyKind, V: Transcript<Key = K>>(view: &V, n: u32) -> u32
    ensures { RunEnd K.KeyKind.rank (V.Transcript.starts view.now) (V.Transcript.lines view.now) n result }
{
    let total = view.total();
    if n >= total {
        return n;
    }
    first_that_fails(n + 1, total, |j| is_alike(view, j))
}

// The turn of line `n`, counted from 0: how many lines past the first, up to it, differ from the one
// before.
pub(crate) fn turn_number<K: KeyKind, V: Transcript<Key = K>>(view: &V, n: u32) -> u32
    requires low { V.Transcript.starts view.now ≤ n }
    requires high { n < u32.MAX }
    ensures { result ≡ turn_at K.KeyKind.rank (V.Transcript.starts view.now) (V.Transcript.lines view.now) n }
{
    how_many_pass(view.first() + 1, n + 1, |j| !is_alike(view, j))
}

// The first line of turn `k`; the total where there are not so many.
pub(crate) fn turn_start<K: KeyKind, V: Transcript<Key = K>>(view: &V, k: u64) -> u32
    ensures { result ≡ turn_begins K.KeyKind.rank (V.Transcript.starts view.now) (V.Transcript.lines view.now) k }
{
    let (first, total) = (view.first(), view.total());
    if k == 0 || first == total {
        return first;
    }
    let mut turn: u64 = 0;
    let mut before = view.line(first);
    for n in first + 1..total {
        let here = view.line(n);
        if !is_same(before, here) {
            turn += 1;
            if turn == k {
                return n;
            }
        }
        before = here;
    }
    total
}
