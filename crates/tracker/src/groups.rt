ghost use Rattle.std.specs.Prelude.{◌≡◌, ℕ, ◌-◌, ◌^◌, ◌<◌, ◌≤◌, min, length, slice_index};
ghost use Rattle.meaning.specs.Turns.{last_held};
ghost use Rattle.search.specs.Views.{total_of};
ghost use Rattle.frame.specs.Frames.{framed};
ghost use Rattle.tracker.specs.Ends.{entry_of, far, needed};
ghost use Rattle.tracker.specs.Walks.{Rise, rise_prop, all_ends};

use crate::table::entry_past;
use crate::walk::{Reach, walk_on};
use frame::bound::WindowFrameBound;
use frame::frame::WindowFrame;
use transcript::keys::KeyKind;
use transcript::view::Transcript;

// A question under GROUPS: a line that a view shows, and the entries of the turn table that are in use.
#[derive(Drop)]
pub(crate) struct Question<'a, 't, V: Transcript> {
    pub(crate) view: &'a V,
    pub(crate) line: u32,
    pub(crate) used: &'t [u64],
    ghost fits: { total_of (V.Transcript.starts view.now) (V.Transcript.lines view.now) < 2 ^ 32 },
    ghost low: { V.Transcript.starts view.now ≤ line },
    ghost high: { line < total_of (V.Transcript.starts view.now) (V.Transcript.lines view.now) },
    ghost rises: { Rise (V.Transcript.starts view.now) used.now } by { rise_prop (V.Transcript.starts view.now) used.now },
    ghost below: { last_held (V.Transcript.starts view.now) used.now < total_of (V.Transcript.starts view.now) (V.Transcript.lines view.now) },
}

// How many entries reach as far as a bound does, if there are so many turns.
fn furthest(bound: WindowFrameBound, entry: usize) -> usize
    ensures { result ≡ min (far bound entry) 18446744073709551615 }
{
    match bound {
        WindowFrameBound::Following(n) => entry.saturating_add(n as usize).saturating_add(1),
        _ => entry.saturating_add(1),
    }
}

impl<'a, 't, K: KeyKind, V: Transcript<Key = K>> Question<'a, 't, V> {
    // Where a walk behind the entries in use begins: at the last line that they hold, for its turn may
    // have gone on.
    pub(crate) fn last_held(&self) -> Reach
        ensures entries { result.entries ≡ length self.now.used.now - 1 }
        ensures end { result.end ≡ last_held (V.Transcript.starts self.now.view.now) self.now.used.now }
        ensures low { V.Transcript.starts self.now.view.now ≤ result.end }
        ensures high { result.end < total_of (V.Transcript.starts self.now.view.now) (V.Transcript.lines self.now.view.now) }
        ensures few { result.entries ≤ result.end }
    {
        match self.used {
            [] => Reach {
                entries: 0,
                end: self.view.first(),
            },
            [before @ .., last] => Reach {
                entries: before.len(),
                end: (*last - 1) as u32,
            },
        }
    }

    // The entry of the line's turn. No entry before `at` lies past the line.
    pub(crate) fn entry(&self, at: usize) -> usize
        requires passed { (k : ℕ) → k < at → slice_index self.now.used.now k ≤ self.now.line }
        requires behind { at ≤ length self.now.used.now - 1 }
        ensures { result ≡ entry_of (all_ends K.KeyKind.rank (V.Transcript.starts self.now.view.now) (V.Transcript.lines self.now.view.now) self.now.used.now (length self.now.used.now)) self.now.line }
    {
        let live = self.used.len();
        let from = self.last_held();
        let reach = walk_on(self.view, from, self.line, live);
        if reach.entries > live {
            return reach.entries - 1;
        }
        entry_past(&self.used[..from.entries], at, self.line)
    }

    // How many entries the question needs, where its line's turn is this entry.
    pub(crate) fn entries_needed(&self, entry: usize, frame: &WindowFrame) -> usize
        requires { entry ≡ entry_of (all_ends K.KeyKind.rank (V.Transcript.starts self.now.view.now) (V.Transcript.lines self.now.view.now) self.now.used.now (length self.now.used.now)) self.now.line }
        ensures { result ≡ needed (framed frame.now).start (framed frame.now).end (all_ends K.KeyKind.rank (V.Transcript.starts self.now.view.now) (V.Transcript.lines self.now.view.now) self.now.used.now (length self.now.used.now)) (length self.now.used.now) entry }
    {
        let start = furthest(frame.start_bound(), entry);
        let end = furthest(frame.end_bound(), entry);
        let wanted = self.used.len().max(start).max(end);
        walk_on(self.view, self.last_held(), self.line, wanted).entries
    }
}
