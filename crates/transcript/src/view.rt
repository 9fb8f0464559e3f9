ghost use Rattle.std.specs.Prelude.{◌≡◌, ℕ, ◌+◌, List, length, Option as Maybe};
ghost use Rattle.transcript.specs.Lines.{at_line};

use crate::keys::KeyKind;

// A view of a transcript. Its meaning is a first line number and a list of lines, each a key or unmarked.
pub trait Transcript {
    type Key: KeyKind;

    ghost starts: { Self → ℕ };

    ghost lines: { Self → List (Maybe Self.Key) };

    // The number of the first line held.
    fn first(&self) -> u32
        ensures { result ≡ starts self.now };

    // The number of the line after the last one held.
    fn total(&self) -> u32
        ensures { result ≡ starts self.now + length (lines self.now) };

    // The key of line `n`; none where it is unmarked or not held.
    fn line(&self, n: u32) -> Option<Self::Key>
        ensures { result ≡ at_line (starts self.now) (lines self.now) n };
}
