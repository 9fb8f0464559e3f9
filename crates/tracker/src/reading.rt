ghost use Rattle.std.specs.Prelude.{◌≡◌, ℕ, ◌+◌, ◌<◌, ◌≤◌, length, slice_index};
ghost use Rattle.tracker.specs.Ends.{begins, start_by, end_by};

use frame::bound::WindowFrameBound;

// Ends of turns, and the lines that they are ends of.
#[derive(Clone, Copy)]
pub(crate) struct Turns<'a> {
    pub(crate) ends: &'a [u64],
    pub(crate) first: u32,
    pub(crate) total: u32,
    ghost few: { length ends.now ≤ 4294967295 },
    ghost within: { (j : ℕ) → j < length ends.now → slice_index ends.now j ≤ total },
}

impl<'a> Turns<'a> {
    // Where turn `k` begins; the total where there is none.
    fn begins_at(self, k: usize) -> u32
        ensures { result ≡ begins self.entry.first self.entry.total self.entry.ends.now k }
    {
        match k.checked_sub(1) {
            None => self.first,
            Some(before) => self.ends.get(before).map_or(self.total, |end| *end as u32),
        }
    }

    // Where the window of turn `g` starts; by the same bound that of the turn before ends there.
    pub(crate) fn edge(self, bound: WindowFrameBound, g: usize) -> u32
        ensures start { result ≡ start_by bound self.entry.first self.entry.total self.entry.ends.now g }
        ensures end { (k : ℕ) → g ≡ k + 1 → result ≡ end_by bound self.entry.first self.entry.total self.entry.ends.now k }
    {
        match bound {
            WindowFrameBound::UnboundedPreceding => self.first,
            WindowFrameBound::Preceding(n) => self.begins_at(g.saturating_sub(n as usize)),
            WindowFrameBound::CurrentRow => self.begins_at(g),
            WindowFrameBound::Following(n) => self.begins_at(g.saturating_add(n as usize)),
            WindowFrameBound::UnboundedFollowing => self.total,
        }
    }
}
