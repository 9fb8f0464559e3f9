ghost use Rattle.std.specs.Prelude.{◌≡◌, Option as Maybe};
ghost use Rattle.packed.specs.Decoded.{decoded};
ghost use Rattle.packed.specs.Fields.{Line};
ghost use Rattle.packed.specs.Keys.{by_elapsed, by_turn};

use crate::line::PackedLine;
use transcript::keys::KeyKind;
use transcript::keys::elapsed::Elapsed;
use transcript::keys::turn::Turn;

// A kind of key that a packed line can hold.
pub trait PackedKey: KeyKind {
    ghost reads: { Line → Maybe Self };

    // The line's key; none where it is unmarked by this kind.
    fn key_of(line: PackedLine<'_>) -> Option<Self>
        ensures { result ≡ reads (decoded line.entry) };
}

impl PackedKey for Elapsed {
    ghost reads = { λ x. by_elapsed x };

    fn key_of(line: PackedLine<'_>) -> Option<Elapsed> {
        line.elapsed.map(Elapsed)
    }
}

impl PackedKey for Turn {
    ghost reads = { λ x. by_turn x };

    fn key_of(line: PackedLine<'_>) -> Option<Turn> {
        let speaker = line.speaker?;
        let question = line.question?;
        Some(Turn { speaker, question })
    }
}
