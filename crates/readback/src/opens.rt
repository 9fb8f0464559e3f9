use crate::args::Args;
use crate::command::{Mistake, Trouble};
use crate::explains::read_options;
use crate::holders::{Holder, PackedHolder, RollHolder};
use crate::keys::{Kind, ScriptKey};
use frame::frame::WindowFrame;
use meaning::options::SortOptions;
use std::alloc::Global;
use tracker::opening::{Opening, open};
use transcript::keys::elapsed::Elapsed;
use transcript::keys::mark::Mark;
use transcript::keys::plain::Plain;
use transcript::keys::turn::Turn;

// A sitting that can begin: what was opened, its turn table, and what is to hold its lines.
#[derive(Drop)]
pub struct Start<K, H> {
    pub opening: Opening<K>,
    pub table: Vec<u64>,
    pub holder: H,
}

// By key kind and holder. An enum, since the gate refuses a function that makes a trait object and hands it
// out.
#[derive(Drop)]
pub enum Request {
    Plain(Start<Plain, RollHolder<Plain>>),
    Elapsed(Start<Elapsed, RollHolder<Elapsed>>),
    Mark(Start<Mark, RollHolder<Mark>>),
    Turn(Start<Turn, RollHolder<Turn>>),
    PackedElapsed(Start<Elapsed, PackedHolder<Elapsed>>),
    PackedTurn(Start<Turn, PackedHolder<Turn>>),
}

// Where the lines of a sitting are held.
#[derive(Clone, Copy, Debug, PartialEq, Eq)]
enum Place {
    Roll,
    Packed,
}

impl TryFrom<&[u8]> for Place {
    type Error = Mistake;

    fn try_from(word: &[u8]) -> Result<Place, Mistake> {
        match word {
            b"roll" => Ok(Place::Roll),
            b"packed" => Ok(Place::Packed),
            _ => Err(Mistake::BadHolder),
        }
    }
}

// How `open` goes on behind the kind.
#[derive(Clone, Copy)]
struct Wanted {
    options: SortOptions,
    entries: usize,
    place: Place,
    size: usize,
}

// ORDER UNMARKED ENTRIES, and `roll SLOTS` or `packed PLACES`.
fn read_wanted(args: &mut Args) -> Result<Wanted, Mistake> {
    let options = read_options(args)?;
    let entries = args.size()?;
    let place = Place::try_from(args.word()?)?;
    let size = args.size()?;
    args.end()?;
    Ok(Wanted {
        options,
        entries,
        place,
        size,
    })
}

fn begin<K: ScriptKey, H: Holder<Key = K> + Drop>(
    heap: Global,
    frame: &WindowFrame,
    wanted: Wanted,
) -> Result<Start<K, H>, Trouble> {
    let opening: Opening<K> = open(frame, wanted.options)?;
    let table: Vec<u64> = vec![in heap; 0; wanted.entries]?;
    let holder = H::empty(heap, wanted.size)?;
    Ok(Start {
        opening,
        table,
        holder,
    })
}

// What `open KIND ORDER UNMARKED ENTRIES roll SLOTS` and `.. packed PLACES` ask for, and the kind.
pub fn read_open(
    heap: Global,
    frame: Option<WindowFrame>,
    args: &[u8],
) -> Result<(Kind, Request), Trouble> {
    let frame = frame.ok_or(Mistake::NoFrame)?;
    let mut args = Args::new(args);
    let kind = args.word()?;
    let wanted = read_wanted(&mut args)?;
    let kind = Kind::try_from(kind)?;
    let request = match (wanted.place, kind) {
        (Place::Roll, Kind::Plain) => Request::Plain(begin(heap, &frame, wanted)?),
        (Place::Roll, Kind::Elapsed) => Request::Elapsed(begin(heap, &frame, wanted)?),
        (Place::Roll, Kind::Mark) => Request::Mark(begin(heap, &frame, wanted)?),
        (Place::Roll, Kind::Turn) => Request::Turn(begin(heap, &frame, wanted)?),
        (Place::Packed, Kind::Elapsed) => Request::PackedElapsed(begin(heap, &frame, wanted)?),
        (Place::Packed, Kind::Turn) => Request::PackedTurn(begin(heap, &frame, wanted)?),
        (Place::Packed, _) => return Err(Trouble::Script(Mistake::BadKind)),
    };
    Ok((kind, request))
}
