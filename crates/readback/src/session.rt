ghost use Rattle.std.specs.Prelude.{◌≡◌, ◌⊎◌, IfOk, IfErr, Ok, None, string_bytes};
ghost use Rattle.std.specs.Option.{option_map};
ghost use Rattle.frame.specs.Clause.{clause as clause_of_text};
ghost use Rattle.frame.specs.Frames.{framed, reversed};
ghost use Rattle.readback.specs.Commands.{command};
ghost use Rattle.readback.specs.Lines.{clause_line, error_line};
ghost use Rattle.readback.specs.declared.command.Mistake.TheVariants.{NoMemory};
ghost use Rattle.readback.specs.Scripts.{current, taken, after, reverse_line, Replies};
ghost use Rattle.readback.specs.Troubles.{trouble_line};

use crate::answer::{clause_line, error_line, frame_line, refusal_line};
use crate::command::{Command, Mistake, Trouble, read_command};
use crate::explains::explain_line;
use crate::packs::{scan_line, view_line};
use frame::clause::read_clause;
use frame::frame::WindowFrame;
use std::alloc::{AllocError, Global};

// A command's answer, where trouble is answered too.
pub fn told(heap: Global, answer: Result<String, Trouble>) -> Result<String, AllocError>
    ensures answer { IfOk answer (λ text. result ≡ Ok text) }
    ensures trouble { IfErr answer (λ t. IfOk result (λ s. string_bytes s ≡ trouble_line t)) }
{
    answer.or_else(|trouble| format!(in heap; "{trouble}"))
}

// The same, but where there is no memory for a refusal that is a mistake like others.
fn replied(heap: Global, answer: Result<String, Trouble>) -> Result<String, AllocError>
    ensures answer { IfOk answer (λ text. result ≡ Ok text) }
    ensures trouble { IfErr answer (λ t. IfOk result (λ s. (string_bytes s ≡ trouble_line t) ⊎ (string_bytes s ≡ error_line NoMemory))) }
{
    match answer {
        Err(Trouble::Refused(refusal)) => {
            refusal_line(heap, refusal).or_else(|_| error_line(heap, Mistake::NoMemory))
        }
        other => told(heap, other),
    }
}

// What a script has set up so far.
#[derive(Drop)]
pub struct Session {
    frame: Option<WindowFrame>,
}

impl Session {
    pub fn new() -> Session
        ensures { current result ≡ None }
    {
        Session { frame: None }
    }

    // The current frame, if there is one.
    pub fn frame(&self) -> Option<WindowFrame>
        ensures { option_map framed result ≡ current self.now }
    {
        self.frame
    }

    // Carries out one line, and answers it unless it asks for nothing.
    pub fn answer(&mut self, heap: Global, line: &[u8]) -> Result<Option<String>, AllocError>
        ensures reply { IfOk result (λ a. Replies (current self.old) (command line.now) (option_map string_bytes a)) }
        ensures state { current self.new ≡ after (current self.old) (command line.now) }
    {
        let answer = match read_command(line) {
            Ok(None) => return Ok(None),
            Ok(Some(Command::Clause(text))) => self.clause(heap, text)?,
            Ok(Some(Command::Reverse)) => self.reverse(heap)?,
            Ok(Some(Command::Scan(args))) => replied(heap, scan_line(heap, args))?,
            Ok(Some(Command::View(args))) => replied(heap, view_line(heap, args))?,
            Ok(Some(Command::Explain(args))) => replied(
                heap,
                explain_line(heap, self.frame, args),
            )?,
            Err(mistake) => error_line(heap, mistake)?,
        };
        Ok(Some(answer))
    }

    // Reads a clause; if it is a frame, that becomes the current one.
    fn clause(&mut self, heap: Global, text: &[u8]) -> Result<String, AllocError>
        ensures reply { IfOk result (λ s. string_bytes s ≡ clause_line (clause_of_text text.now)) }
        ensures state { current self.new ≡ taken (current self.old) (clause_of_text text.now) }
    {
        let reading = read_clause(text);
        if let Ok(frame) = reading {
            self.frame = Some(frame);
        }
        clause_line(heap, &reading)
    }

    // Reverses the current frame.
    fn reverse(&mut self, heap: Global) -> Result<String, AllocError>
        ensures reply { IfOk result (λ s. string_bytes s ≡ reverse_line (current self.old)) }
        ensures state { current self.new ≡ option_map reversed (current self.old) }
    {
        match self.frame {
            Some(frame) => {
                let frame = frame.reverse();
                self.frame = Some(frame);
                frame_line(heap, &frame)
            }
            None => error_line(heap, Mistake::NoFrame),
        }
    }
}
