ghost use Rattle.std.specs.Prelude.{◌≡◌, Bool, true, false, is_ok, if◌then◌else◌};
ghost use Rattle.packed.specs.Scans.{walk_of, scan_of, filled, reason_of, TestsEntry};
ghost use Rattle.packed.specs.Spells.{Scanned};

use crate::line::{LineFault, PackedLine};
use frame::refusal::{Layer, Reason, Refusal};

impl From<LineFault> for Reason {
    ghost from_gives = { λ fault reason. reason ≡ reason_of fault };

    fn from(fault: LineFault) -> Reason {
        match fault {
            LineFault::UnknownBits => Reason::UnknownBits,
            LineFault::CutShort => Reason::LineCutShort,
        }
    }
}

// Checks every line, and counts them: each has an entry that is right for the line's place.
pub(crate) fn walk<F: Fn(u32, usize) -> bool>(
    table: &[u32],
    bytes: &[u8],
    is_right: F,
) -> Result<usize, Refusal>
    requires { F.IsAlwaysCallable is_right }
    ensures { (strict : Bool) → TestsEntry strict (F.post is_right) → result ≡ walk_of strict table.now 0 0 bytes.now }
{
    // The bytes say how many lines there are, and not the table, which may have more entries or fewer.
    let mut rest = bytes;
    let mut count = 0;
    while !rest.is_empty() {
        let place = bytes.len() - rest.len();
        if count >= table.len() || place > u32::MAX as usize {
            return Err(Layer::Transcript.refuse(Reason::NoPlaceEntry, place as u64));
        }
        let (_, next) = match PackedLine::read(rest) {
            Ok(read) => read,
            Err(fault) => return Err(Layer::Transcript.refuse(fault.into(), place as u64)),
        };
        if !is_right(table[count], place) {
            return Err(Layer::Transcript.refuse(Reason::WrongPlaceEntry, count as u64));
        }
        rest = next;
        count += 1;
    }
    Ok(count)
}

// Writes the places, where a walk has found every line good.
fn fill(table: &mut [u32], bytes: &[u8])
    requires { is_ok (walk_of false table.old 0 0 bytes.now) ≡ true }
    ensures { table.new ≡ filled table.old 0 bytes.now }
{
    let mut rest = bytes;
    for slot in table.iter_mut() {
        let Ok((_, next)) = PackedLine::read(rest) else {
            return;
        };
        *slot = (bytes.len() - rest.len()) as u32;
        rest = next;
    }
}

// Writes the place of each line into the table, and answers how many there are.
// Where it refuses, the table holds what it held.
pub fn scan(table: &mut [u32], bytes: &[u8]) -> Result<u32, Refusal>
    ensures answer { result ≡ scan_of table.old bytes.now }
    ensures table { table.new ≡ (if is_ok result then filled table.old 0 bytes.now else table.old) }
    ensures lines { Scanned bytes.now table.old table.new result }
{
    let count = walk(table, bytes, |_, _| true)?;
    if count > u32::MAX as usize {
        return Err(Layer::Transcript.refuse(Reason::TooManyLines, 0));
    }
    fill(table, bytes);
    Ok(count as u32)
}
