ghost use Rattle.std.specs.Prelude.{pos};

use crate::keys::KeyKind;

// A key of one value only.
#[derive(Clone, Copy, Debug, PartialEq, Eq, PartialOrd, Ord)]
pub struct Plain;

impl KeyKind for Plain {
    ghost columns = { 0 };

    ghost rank = { λ _. pos 1 };

    fn column_count() -> u32 {
        0
    }

    fn same(self, _other: Plain) -> bool {
        true
    }

    fn before(self, _other: Plain) -> bool {
        false
    }

    fn within(self, _other: Plain, _n: u64) -> bool {
        true
    }
}
