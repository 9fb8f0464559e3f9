ghost use Rattle.std.specs.Prelude.{pos};

use crate::keys::KeyKind;

// Milliseconds since the start.
#[derive(Clone, Copy, Debug, PartialEq, Eq, PartialOrd, Ord)]
pub struct Elapsed(pub u64);

impl KeyKind for Elapsed {
    ghost columns = { 1 };

    ghost rank = { λ k. pos k.0 };

    fn column_count() -> u32 {
        1
    }

    fn same(self, other: Elapsed) -> bool {
        self == other
    }

    fn before(self, other: Elapsed) -> bool {
        self < other
    }

    fn within(self, other: Elapsed, n: u64) -> bool {
        other.0.saturating_sub(self.0) <= n
    }
}
