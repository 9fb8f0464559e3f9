ghost use Rattle.std.specs.Prelude.{◌≡◌, ◌+◌, ◌≤◌, ⊤, length};

use crate::keys::KeyKind;
use crate::view::Transcript;
use frame::refusal::{Layer, Reason, Refusal};
use std::alloc::AllocError;

// A view over an array of stamps: each a key or unmarked.
pub struct StampView<'a, K> {
    first: u32,
    stamps: &'a [Option<K>],
    ghost fits: { first + length stamps.now ≤ 4294967295 },
}

// By hand: no derive copies a struct with a ghost field over a parameter.
impl<'a, K> Clone for StampView<'a, K> {
    ghost is_clone = { λ x y. y ≡ x };

    ghost is_infallible = { λ _. ⊤ };

    fn clone(&self) -> Result<StampView<'a, K>, AllocError> {
        Ok(*self)
    }
}

impl<'a, K> Copy for StampView<'a, K> {}

impl<'a, K: KeyKind> StampView<'a, K> {
    ghost use Rattle.transcript.specs.Lines.{viewed};
    ghost use Rattle.transcript.specs.Stamps.{meaning};

    // The stamps as lines from `first` on, unless their total would pass the largest line number.
    pub fn new(first: u32, stamps: &'a [Option<K>]) -> Result<StampView<'a, K>, Refusal>
        ensures { meaning result ≡ viewed first stamps.now }
    {
        if stamps.len() > (u32::MAX - first) as usize {
            return Err(Layer::Transcript.refuse(Reason::TooManyLines, 0));
        }
        Ok(StampView { first, stamps })
    }
}

impl<'a, K: KeyKind> Transcript for StampView<'a, K> {
    ghost use Rattle.transcript.specs.Stamps.{lines_of};

    type Key = K;

    ghost starts = { λ v. v.first };

    ghost lines = { λ v. lines_of v };

    fn first(&self) -> u32 {
        self.first
    }

    fn total(&self) -> u32 {
        self.first + self.stamps.len() as u32
    }

    fn line(&self, n: u32) -> Option<K> {
        let i = n.checked_sub(self.first)?;
        *self.stamps.get(i as usize)?
    }
}
