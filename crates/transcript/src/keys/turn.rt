ghost use Rattle.std.specs.Prelude.{◌≡◌, ◌+◌, ◌*◌, ◌^◌, pos};

use crate::keys::KeyKind;

// Who speaks, and to which question.
#[derive(Clone, Copy, Debug, PartialEq, Eq, PartialOrd, Ord)]
pub struct Turn {
    pub speaker: u8,
    pub question: u32,
}

impl Turn {
    // The rank, which has 40 bits.
    fn number(self) -> u64
        ensures { result ≡ self.speaker * 2 ^ 32 + self.question }
    {
        u64::from(self.speaker) * 4294967296 + u64::from(self.question)
    }
}

impl KeyKind for Turn {
    ghost columns = { 2 };

    ghost rank = { λ k. pos (k.speaker * 2 ^ 32 + k.question) };

    fn column_count() -> u32 {
        2
    }

    fn same(self, other: Turn) -> bool {
        self == other
    }

    fn before(self, other: Turn) -> bool {
        self < other
    }

    fn within(self, other: Turn, n: u64) -> bool {
        other.number().saturating_sub(self.number()) <= n
    }
}
