ghost use Rattle.std.specs.Prelude.{◌≡◌, ℕ, ◌-◌, ◌<◌, ◌≤◌, length, take, nat_le, slice_index};
ghost use Rattle.meaning.specs.Counts.{walk};
ghost use Rattle.sitting.specs.Rules.{staying};
ghost use Rattle.sitting.specs.Tables.{above, in_front};

use crate::tracker::TurnTable;
use frame::bound::WindowFrameUnits;

// Of the first `live` entries, which rise, those above `n` move to the front, and all behind them stay;
// answers how many moved.
fn keep_above(table: &mut [u64], live: usize, n: u64) -> usize
    requires room { live ≤ length table.old }
    requires rising { (j k : ℕ) → j < k → k < live → slice_index table.old j < slice_index table.old k }
    ensures count { result ≡ length (above n (take live table.old)) }
    ensures moved { table.new ≡ in_front (above n (take live table.old)) table.old }
{
    let gone = table[..live].partition_point(|end| *end <= n);
    table.copy_within(gone..live, 0);
    live - gone
}

// The first entry from `from` on that lies past `line`; the count of entries where none does.
pub(crate) fn entry_past(entries: &[u64], from: usize, line: u32) -> usize
    requires { from ≤ length entries.now }
    ensures { result ≡ walk (λ k. nat_le (slice_index entries.now k) line) from (length entries.now - from) }
{
    let line = u64::from(line);
    from + entries[from..]
        .iter()
        .take_while(|end| **end <= line)
        .count()
}

impl<'a> TurnTable<'a> {
    // What a filing up to `n` leaves of the entries in use: under GROUPS those of turns that end above
    // it.
    pub(crate) fn keep_above(&mut self, units: WindowFrameUnits, live: usize, n: u32) -> usize
        requires room { live ≤ length self.old.ends.now }
        requires rising { (j k : ℕ) → j < k → k < live → slice_index self.old.ends.now j < slice_index self.old.ends.now k }
        ensures count { result ≡ length (staying units n (take live self.old.ends.now)) }
        ensures moved { self.new.ends.now ≡ in_front (staying units n (take live self.old.ends.now)) self.old.ends.now }
        ensures lent { self.new.ends.ghost_name ≡ self.old.ends.ghost_name }
    {
        match units {
            WindowFrameUnits::Groups => keep_above(self.ends, live, u64::from(n)),
            _ => 0,
        }
    }
}
