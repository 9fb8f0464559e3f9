use crate::answer::{push_key, push_numbers};
use crate::args::{Args, number32_of};
use crate::command::{Mistake, Trouble};
use crate::keys::{Kind, ScriptKey};
use packed::reads::PackedKey;
use packed::scan::scan;
use packed::view::PackedView;
use std::alloc::{AllocError, Global};
use transcript::keys::elapsed::Elapsed;
use transcript::keys::turn::Turn;
use transcript::view::Transcript;

// The answer to `scan PLACES HEX`.
pub fn scan_line(heap: Global, args: &[u8]) -> Result<String, Trouble> {
    let mut args = Args::new(args);
    let places = args.size()?;
    let bytes = args.bytes(heap)?;
    args.end()?;
    let mut table: Vec<u32> = vec![in heap; 0; places]?;
    let n = scan(table.as_mut_slice(), bytes.as_slice())?;
    let mut text = format!(in heap; "scan {n}")?;
    push_numbers(&mut text, table.as_slice())?;
    Ok(text)
}

// A view's first line and total, and the key of each line.
fn view_text<V: Transcript>(heap: Global, view: &V) -> Result<String, AllocError>
where
    V::Key: ScriptKey,
{
    let first = view.first();
    let total = view.total();
    let mut text = format!(in heap; "view {first} {total}")?;
    for key in (first..total).map(|n| view.line(n)) {
        push_key(&mut text, key)?;
    }
    Ok(text)
}

fn packed_text<K: PackedKey + ScriptKey>(
    heap: Global,
    first: u32,
    bytes: &[u8],
    places: &[u32],
) -> Result<String, Trouble> {
    let view: PackedView<K> = PackedView::new(first, bytes, places)?;
    Ok(view_text(heap, &view)?)
}

// The answer to `view KIND FIRST HEX P P ..`.
pub fn view_line(heap: Global, args: &[u8]) -> Result<String, Trouble> {
    let mut args = Args::new(args);
    let kind = args.word()?;
    let first = args.number32()?;
    let bytes = args.bytes(heap)?;
    let mut places: Vec<u32> = Vec::new(heap);
    for word in args {
        places.push(number32_of(word)?)?;
    }
    match Kind::try_from(kind)? {
        Kind::Elapsed => packed_text::<Elapsed>(heap, first, bytes.as_slice(), places.as_slice()),
        Kind::Turn => packed_text::<Turn>(heap, first, bytes.as_slice(), places.as_slice()),
        Kind::Plain | Kind::Mark => Err(Trouble::Script(Mistake::BadKind)),
    }
}
