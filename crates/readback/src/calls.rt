use crate::answer::window_line;
use crate::args::Args;
use crate::asks::Call;
use crate::command::{Mistake, Trouble};
use crate::explains::read_keys;
use crate::holders::Holder;
use crate::keys::ScriptKey;
use std::alloc::Global;
use tracker::tracker::Tracker;
use transcript::stamps::StampView;

// The number that `window` and `file` have behind them.
fn only_number(args: &mut Args) -> Result<u32, Mistake> {
    let n = args.number32()?;
    args.end()?;
    Ok(n)
}

// The answer to `ask N FIRST KEY KEY ..`.
fn ask_line<K: ScriptKey>(
    heap: Global,
    tracker: &mut Tracker<'_, K>,
    args: &mut Args,
) -> Result<String, Trouble> {
    let line = args.number32()?;
    let first = args.number32()?;
    let keys: Vec<Option<K>> = read_keys(heap, args)?;
    let view: StampView<K> = StampView::new(first, keys.as_slice())?;
    let (start, end) = tracker.window(&view, line)?;
    Ok(window_line(heap, start, end)?)
}

// The answer to `table`.
pub fn table_line<K: ScriptKey>(
    heap: Global,
    tracker: &Tracker<'_, K>,
    args: &[u8],
) -> Result<String, Trouble> {
    Args::new(args).end()?;
    let mut text = String::from_str(heap, "table")?;
    for end in (0..tracker.entries()).filter_map(|k| tracker.entry(k)) {
        write!(text, " {end}")?;
    }
    Ok(text)
}

// The answer to a command of a sitting other than `table`.
pub fn call_line<K: ScriptKey, H: Holder<Key = K>>(
    heap: Global,
    tracker: &mut Tracker<'_, K>,
    holder: &mut H,
    call: Call,
    args: &[u8],
) -> Result<String, Trouble> {
    let mut args = Args::new(args);
    match call {
        Call::Window => {
            let (start, end) = holder.window(tracker, only_number(&mut args)?)?;
            Ok(window_line(heap, start, end)?)
        }
        Call::Ask => ask_line(heap, tracker, &mut args),
        Call::File => {
            let (from, to) = holder.file(tracker, only_number(&mut args)?)?;
            Ok(format!(in heap; "slip {from} {to}")?)
        }
        _ => holder.own(heap, call, &mut args),
    }
}
