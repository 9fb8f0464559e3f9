ghost use Rattle.std.specs.Prelude.{Some};
ghost use Rattle.transcript.specs.Shown.{plain_text, elapsed_text, mark_text, turn_text};

use crate::keys::elapsed::Elapsed;
use crate::keys::mark::Mark;
use crate::keys::plain::Plain;
use crate::keys::turn::Turn;
use std::fmt;

impl fmt::Display for Plain {
    ghost output = { λ _. Some plain_text };

    fn fmt<W: fmt::Write>(&self, f: &mut fmt::Formatter<W>) -> fmt::Result {
        f.write_str("*")
    }
}

impl fmt::Display for Elapsed {
    ghost output = { λ k. Some (elapsed_text k.0) };

    fn fmt<W: fmt::Write>(&self, f: &mut fmt::Formatter<W>) -> fmt::Result {
        let Elapsed(ms) = *self;
        write!(f, "{ms}")
    }
}

impl fmt::Display for Mark {
    ghost output = { λ k. Some (mark_text k.0) };

    fn fmt<W: fmt::Write>(&self, f: &mut fmt::Formatter<W>) -> fmt::Result {
        let Mark(ms) = *self;
        write!(f, "{ms}")
    }
}

impl fmt::Display for Turn {
    ghost output = { λ k. Some (turn_text k.speaker k.question) };

    fn fmt<W: fmt::Write>(&self, f: &mut fmt::Formatter<W>) -> fmt::Result {
        let speaker = self.speaker;
        let question = self.question;
        write!(f, "{speaker}:{question}")
    }
}
