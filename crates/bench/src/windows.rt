use crate::runs::timed;
use frame::refusal::Refusal;
use meaning::options::SortOptions;
use std::alloc::{AllocError, Global};
use tracker::filing::file_roll;
use tracker::opening::open_clause;
use tracker::roll::Roll;
use tracker::tracker::Tracker;
use transcript::keys::elapsed::Elapsed;
use transcript::stamps::StampView;
use transcript::view::Transcript;

const RISING: SortOptions = SortOptions {
    descending: false,
    unmarked_first: false,
};

// So many lines come in before they are asked for, where the transcript grows.
const COME: usize = 100;
// The lines that are held at most: those of the longest window, and those that have come in.
const HELD: usize = 1000;

const CLAUSES: [&str; 3] = [
    "rows between 5 preceding and current row",
    "range between 3000 preceding and 1000 following",
    "groups between 2 preceding and 1 preceding",
];

// Three lines to a key, half a second apart.
fn stamps(heap: Global, count: usize) -> Result<Vec<Option<Elapsed>>, AllocError> {
    let mut stamps = Vec::with_capacity(heap, count)?;
    for i in 0..count {
        stamps.push(Some(Elapsed((i as u64 / 3).saturating_mul(500))))?;
    }
    Ok(stamps)
}

fn summed(sum: u64, window: (u32, u32)) -> u64 {
    sum.wrapping_mul(31)
        .wrapping_add(u64::from(window.0))
        .wrapping_mul(31)
        .wrapping_add(u64::from(window.1))
}

// Every line asked of a transcript that is there whole.
fn whole(tracker: &mut Tracker<'_, Elapsed>, stamps: &[Option<Elapsed>]) -> Result<u64, Refusal> {
    let view = StampView::new(0, stamps)?;
    let mut sum = 0;
    for line in 0..view.total() {
        sum = summed(sum, tracker.window(&view, line)?);
    }
    Ok(sum)
}

// Every line asked when it has come in, with others; and filed as far as allowed.
fn live(
    tracker: &mut Tracker<'_, Elapsed>,
    slots: &mut [Option<Elapsed>],
    stamps: &[Option<Elapsed>],
) -> Result<u64, Refusal> {
    let mut roll = Roll::starting(0);
    let mut sum = 0;
    for come in stamps.chunks(COME) {
        let (first, count) = roll.numbers();
        for stamp in come {
            roll.add(slots, *stamp)?;
        }
        let mut limit = 0;
        {
            let view = roll.view(slots)?;
            for line in first.saturating_add(count)..view.total() {
                let window = tracker.window(&view, line)?;
                sum = summed(sum, window);
                limit = line.min(window.0).min(window.1);
            }
        }
        file_roll(tracker, &mut roll, slots, limit)?;
    }
    Ok(sum)
}

// Asks for `count` windows, and tells how long that took and what they are.
fn asked<F: FnOnce() -> Result<u64, Refusal>>(
    rt: &HostRuntime,
    name: &str,
    count: usize,
    ask: F,
) -> anyhow::Result<()>
    requires { F.IsAlwaysCallable ask }
{
    let sum = timed(rt, name, ask)??;
    Ok(println!(rt; "{name}: {count} windows checksum {sum}")?)
}

// A tracker is asked for every line under each clause, the transcript whole, and growing.
pub fn windows(rt: &HostRuntime, count: usize) -> anyhow::Result<()> {
    let heap = rt.alloc();
    let stamps = stamps(heap, count)?;
    let mut slots: Vec<Option<Elapsed>> = vec![in heap; None; HELD]?;
    let mut table: Vec<u64> = vec![in heap; 0; count]?;
    for clause in CLAUSES {
        let opening = open_clause(clause.as_bytes(), RISING)?;
        let mut tracker = opening.track(table.as_mut_slice());
        asked(rt, clause, count, || whole(&mut tracker, stamps.as_slice()))?;
        let mut tracker = opening.track(table.as_mut_slice());
        asked(
            rt,
            "live",
            count,
            || live(&mut tracker, slots.as_mut_slice(), stamps.as_slice()),
        )?;
    }
    Ok(())
}
