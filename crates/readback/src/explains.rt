use crate::answer::window_line;
use crate::args::Args;
use crate::command::{Mistake, Trouble};
use crate::keys::{Kind, ScriptKey, read_key};
use frame::bound::WindowFrameUnits;
use frame::frame::WindowFrame;
use meaning::options::SortOptions;
use search::explain::window_of;
use search::opening::check_opening;
use search::sorted::first_disorder;
use std::alloc::Global;
use transcript::keys::KeyKind;
use transcript::keys::elapsed::Elapsed;
use transcript::keys::mark::Mark;
use transcript::keys::plain::Plain;
use transcript::keys::turn::Turn;
use transcript::stamps::StampView;

// ORDER and UNMARKED.
pub fn read_options(args: &mut Args) -> Result<SortOptions, Mistake> {
    let order = args.word()?;
    let unmarked = args.word()?;
    let descending = match order {
        b"asc" => false,
        b"desc" => true,
        _ => return Err(Mistake::BadOption),
    };
    let unmarked_first = match unmarked {
        b"first" => true,
        b"last" => false,
        _ => return Err(Mistake::BadOption),
    };
    Ok(SortOptions {
        descending,
        unmarked_first,
    })
}

// The keys that are left. Places are read by a loop of their own: given `read_key` a method over both is not
// covered, since what that gives names a type that its argument doesn't.
pub fn read_keys<K: ScriptKey>(heap: Global, args: &mut Args) -> Result<Vec<Option<K>>, Trouble> {
    let mut keys: Vec<Option<K>> = Vec::new(heap);
    for word in args {
        keys.push(read_key(word)?)?;
    }
    Ok(keys)
}

// The window of a line; under RANGE only of lines in order.
fn window_over<K: ScriptKey>(
    heap: Global,
    frame: &WindowFrame,
    options: SortOptions,
    line: u32,
    view: StampView<K>,
) -> Result<String, Trouble> {
    let (start, end) = window_of(&view, frame, options, line).ok_or(Mistake::NoSuchLine)?;
    if let WindowFrameUnits::Range = frame.units() {
        if first_disorder(&view, options, 1).is_some() {
            return Err(Trouble::Script(Mistake::OutOfOrder));
        }
    }
    Ok(window_line(heap, start, end)?)
}

fn explain_by<K: ScriptKey>(
    heap: Global,
    frame: &WindowFrame,
    options: SortOptions,
    line: u32,
    args: &mut Args,
) -> Result<String, Trouble> {
    let keys: Vec<Option<K>> = read_keys(heap, args)?;
    check_opening(frame, K::column_count())?;
    let view: StampView<K> = StampView::new(0, keys.as_slice())?;
    window_over(heap, frame, options, line, view)
}

// The answer to `explain N KIND ORDER UNMARKED KEY KEY ..`.
pub fn explain_line(
    heap: Global,
    frame: Option<WindowFrame>,
    args: &[u8],
) -> Result<String, Trouble> {
    let frame = frame.ok_or(Mistake::NoFrame)?;
    let mut args = Args::new(args);
    let line = args.number32()?;
    let kind = args.word()?;
    let options = read_options(&mut args)?;
    match Kind::try_from(kind)? {
        Kind::Plain => explain_by::<Plain>(heap, &frame, options, line, &mut args),
        Kind::Elapsed => explain_by::<Elapsed>(heap, &frame, options, line, &mut args),
        Kind::Mark => explain_by::<Mark>(heap, &frame, options, line, &mut args),
        Kind::Turn => explain_by::<Turn>(heap, &frame, options, line, &mut args),
    }
}
