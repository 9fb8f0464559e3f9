ghost use Rattle.std.specs.Prelude.{◌≡◌, ◌+◌, ◌≤◌, ◌++◌, length, take};
ghost use Rattle.search.specs.Views.{total_of};
ghost use Rattle.sitting.specs.Tables.{in_front};
ghost use Rattle.tracker.specs.Walks.{ends_from, goes, walked};

use search::groups::run_end;
use transcript::keys::KeyKind;
use transcript::view::Transcript;

// Where a walk over turns stands: how many entries it has, and the end of the last.
#[derive(Clone, Copy)]
pub(crate) struct Reach {
    pub(crate) entries: usize,
    pub(crate) end: u32,
}

impl Reach {
    fn goes_on(self, line: u32, entries: usize) -> bool
        ensures { result ≡ goes line entries self.entries self.end }
    {
        self.end <= line || self.entries < entries
    }
}

// Walks on over turns until `line` is passed and there are as many entries as are asked for, or no
// line is left.
pub(crate) fn walk_on<K: KeyKind, V: Transcript<Key = K>>(
    view: &V,
    from: Reach,
    line: u32,
    entries: usize,
) -> Reach
    requires low { V.Transcript.starts view.now ≤ from.end }
    requires high { from.end ≤ total_of (V.Transcript.starts view.now) (V.Transcript.lines view.now) }
    requires few { from.entries ≤ from.end }
    ensures { (result.entries, result.end) ≡ walked line entries (ends_from K.KeyKind.rank (V.Transcript.starts view.now) (V.Transcript.lines view.now) from.end) from.entries from.end }
{
    let total = view.total();
    // How far a step goes is known only once it is made: no range and no slice stands for the walk.
    let mut reach = from;
    while reach.end < total && reach.goes_on(line, entries) {
        reach = Reach {
            entries: reach.entries + 1,
            end: run_end(view, reach.end),
        };
    }
    reach
}

// Writes the ends of the turns behind a walk's place into the table, up to so many entries.
pub(crate) fn write_on<K: KeyKind, V: Transcript<Key = K>>(
    table: &mut [u64],
    view: &V,
    from: Reach,
    entries: usize,
)
    requires low { V.Transcript.starts view.now ≤ from.end }
    requires more { from.entries ≤ entries }
    requires room { entries ≤ length table.old }
    requires enough { entries ≤ from.entries + length (ends_from K.KeyKind.rank (V.Transcript.starts view.now) (V.Transcript.lines view.now) from.end) }
    ensures { table.new ≡ in_front (take entries (take from.entries table.old ++ ends_from K.KeyKind.rank (V.Transcript.starts view.now) (V.Transcript.lines view.now) from.end)) table.old }
{
    let mut end = from.end;
    for slot in &mut table[from.entries..entries] {
        end = run_end(view, end);
        *slot = end as u64;
    }
}
