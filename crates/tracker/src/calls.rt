ghost use Rattle.std.specs.Prelude.{◌≡◌, length};
ghost use Rattle.meaning.specs.Lines.{ranked};
ghost use Rattle.sitting.specs.Calls.{Window, FirstWindow, Filing};
ghost use Rattle.tracker.specs.Slips.{by_numbers};
ghost use Rattle.tracker.specs.Trackers.{state_of, entry_at};

use crate::checks::{check, check_filing};
use crate::slip::Slip;
use crate::standing::{Grant, Standing};
use crate::tracker::Tracker;
use frame::refusal::{Layer, Reason, Refusal};
use transcript::keys::KeyKind;
use transcript::view::Transcript;

impl<'a, K: KeyKind> Tracker<'a, K> {
    // The window of a line over the lines filed and those that the view shows.
    pub fn window<V: Transcript<Key = K>>(
        &mut self,
        view: &V,
        line: u32,
    ) -> Result<(u32, u32), Refusal>
        ensures window { Window (state_of self.old) (V.Transcript.starts view.now) (ranked K.KeyKind.rank (V.Transcript.lines view.now)) line result (state_of self.new) }
        ensures begun { FirstWindow (state_of self.old) (V.Transcript.starts view.now) (ranked K.KeyKind.rank (V.Transcript.lines view.now)) line result (state_of self.new) }
        ensures lent { self.new.table.ends.ghost_name ≡ self.old.table.ends.ghost_name }
    {
        let standing = self.standing;
        check(&standing, view, line)?;
        let total = view.total();
        let found = match self.table.find(&standing, view, line) {
            Ok(found) => found,
            Err(needed) => {
                return Err(Layer::Tracker.refuse(Reason::TurnTableShort, needed as u64));
            }
        };
        self.standing = Standing {
            last: Grant {
                line,
                start: found.start,
                end: found.end,
                total,
            },
            live: found.live,
            at: found.at,
            ..standing
        };
        Ok((found.start, found.end))
    }

    // Files away the lines below `n`, and hands out a slip for it, to be met by whoever holds them.
    pub fn file(&mut self, n: u32) -> Result<Slip, Refusal>
        ensures filed { Filing (state_of self.old) n (by_numbers result) (state_of self.new) }
        ensures lent { self.new.table.ends.ghost_name ≡ self.old.table.ends.ghost_name }
    {
        let standing = self.standing;
        check_filing(&standing, n)?;
        let live = self
            .table
            .keep_above(standing.frame.units(), standing.live, n);
        self.standing = Standing {
            filed: n,
            live,
            at: 0,
            ..standing
        };
        Ok(Slip::new(standing.filed, n))
    }

    // How many entries the turn table has.
    pub fn entries(&self) -> usize
        ensures { result ≡ length (state_of self.now).table }
    {
        self.table.ends.len()
    }

    // An entry of the turn table, in use or not; none past its end.
    pub fn entry(&self, k: usize) -> Option<u64>
        ensures { result ≡ entry_at (state_of self.now).table k }
    {
        self.table.ends.get(k).copied()
    }
}
