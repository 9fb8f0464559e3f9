ghost use Rattle.std.specs.Prelude.{◌≡◌, ◌+◌, ◌≤◌, true, length, IfOk, IsOkAnd, ⊤};
ghost use Rattle.std.proofs.Props.{props};
ghost use Rattle.packed.specs.Scans.{walk_of};

use crate::line::PackedLine;
use crate::reads::PackedKey;
use crate::scan::walk;
use frame::refusal::{Layer, Reason, Refusal};
use std::alloc::AllocError;
use std::marker::PhantomData;
use transcript::view::Transcript;

// A view over packed bytes, by the places of their lines.
pub struct PackedView<'a, 'p, K> {
    first: u32,
    bytes: &'a [u8],
    places: &'p [u32],
    kind: PhantomData<K>,
    // Each line has a number, and each entry is its line's place.
    ghost fits: { first + length places.now ≤ 4294967295 },
    ghost agrees: { IsOkAnd (walk_of true places.now 0 0 bytes.now) (λ n. n ≡ length places.now) } by { Prim.hlevel props },
}

// By hand: no derive copies a struct with a ghost field over a parameter.
impl<K> Copy for PackedView<'_, '_, K> {}

impl<K> Clone for PackedView<'_, '_, K> {
    ghost is_clone = { λ view copy. copy ≡ view };

    ghost is_infallible = { λ _. ⊤ };

    fn clone(&self) -> Result<Self, AllocError> {
        Ok(*self)
    }
}

impl<'a, 'p, K: PackedKey> PackedView<'a, 'p, K> {
    ghost use Rattle.packed.specs.Views.{meaning, view_of, Whole, place_of, from_line, kept_from};

    // The lines of the bytes, from `first` on. Entries past the last line's are not read.
    pub fn new(
        first: u32,
        bytes: &'a [u8],
        places: &'p [u32],
    ) -> Result<PackedView<'a, 'p, K>, Refusal>
        ensures view { meaning K.PackedKey.reads result ≡ view_of K.PackedKey.reads first places.now bytes.now }
        ensures whole { IfOk result (λ v. Whole v bytes.now) }
    {
        let count = walk(places, bytes, |entry, place| entry as usize == place)?;
        if count > (u32::MAX - first) as usize {
            return Err(Layer::Transcript.refuse(Reason::TooManyLines, 0));
        }
        Ok(PackedView {
            first,
            bytes,
            places: &places[..count],
            kind: PhantomData,
        })
    }

    // Where line `first + k` begins: the end of the bytes where no such line is left.
    fn place_of(&self, k: u32) -> usize
        ensures value { result ≡ place_of self.now k }
        ensures bound { result ≤ length self.now.bytes.now }
    {
        self.places
            .get(k as usize)
            .map_or(self.bytes.len(), |place| *place as usize)
    }

    // The bytes of the lines from `n` on; none where no line is left.
    pub fn bytes_from(&self, n: u32) -> &'a [u8]
        ensures table { result.now ≡ from_line self.now n }
        ensures kept { kept_from self.now n result.now }
    {
        let place = self.place_of(n.saturating_sub(self.first));
        &self.bytes[place..]
    }
}

impl<'a, 'p, K: PackedKey> Transcript for PackedView<'a, 'p, K> {
    ghost use Rattle.packed.specs.Views.{held};

    type Key = K;

    ghost starts = { λ v. v.first };

    ghost lines = { λ v. held K.PackedKey.reads v };

    fn first(&self) -> u32 {
        self.first
    }

    fn total(&self) -> u32 {
        self.first + self.places.len() as u32
    }

    fn line(&self, n: u32) -> Option<K> {
        let k = n.checked_sub(self.first)?;
        let place = *self.places.get(k as usize)?;
        let (line, _) = PackedLine::read(&self.bytes[place as usize..]).ok()?;
        K::key_of(line)
    }
}
