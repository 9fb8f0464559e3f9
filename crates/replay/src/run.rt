use crate::sample::{Begin, Recorded, Step, read_step};
use frame::refusal::Refusal;
use std::alloc::{AllocError, Global};
use std::io::{BufRead, BufReader, Split, Stdin};
use tracker::filing::file_roll;
use tracker::opening::{Opening, open};
use tracker::roll::Roll;
use tracker::tracker::Tracker;
use transcript::keys::elapsed::Elapsed;
use transcript::keys::mark::Mark;
use transcript::keys::plain::Plain;
use transcript::keys::turn::Turn;

// The lines of the sample that are still to be read.
type Lines = Split<BufReader<Stdin>>;

// How many windows were compared, and how many differ.
#[derive(Clone, Copy, Debug, PartialEq, Eq)]
struct Tally {
    windows: u64,
    differ: u64,
}

impl Tally {
    fn with(self, same: bool) -> Tally {
        Tally {
            windows: self.windows.saturating_add(1),
            differ: self.differ.saturating_add(u64::from(!same)),
        }
    }
}

// Takes one step of a sitting; answers whether a window is the recorded one.
fn step<K: Recorded>(
    tracker: &mut Tracker<'_, K>,
    roll: &mut Roll,
    slots: &mut [Option<K>],
    step: Step,
) -> Result<Option<bool>, Refusal> {
    match step {
        Step::Line(key) => {
            roll.add(slots, key.map(|n| K::of(n)))?;
            Ok(None)
        }
        Step::Window(line, recorded) => {
            let window = tracker.window(&roll.view(slots)?, line)?;
            Ok(Some(window == recorded))
        }
        Step::Empty(line) => {
            let (start, end) = tracker.window(&roll.view(slots)?, line)?;
            Ok(Some(start >= end))
        }
        Step::File(line) => {
            file_roll(tracker, roll, slots, line)?;
            Ok(None)
        }
        Step::Open(_) => Ok(None),
    }
}

// A sitting, until the next begins or no line is left.
fn sit<K: Recorded>(
    rt: &HostRuntime,
    lines: &mut Lines,
    begin: Begin,
    tally: &mut Tally,
) -> anyhow::Result<Option<Begin>> {
    let heap = rt.alloc();
    let opening: Opening<K> = open(&begin.frame, begin.options)?;
    let mut table: Vec<u64> = vec![in heap; 0; begin.lines]?;
    let mut slots: Vec<Option<K>> = vec![in heap; None; begin.lines]?;
    let mut tracker = opening.track(table.as_mut_slice());
    let mut roll = Roll::starting(0);
    for line in lines.by_ref() {
        let line = line?;
        match read_step(line.as_slice()) {
            None => println!(rt; "a line that is none of a sample")?,
            Some(Step::Open(next)) => return Ok(Some(next)),
            Some(other) => {
                if let Some(same) = step(&mut tracker, &mut roll, slots.as_mut_slice(), other)? {
                    *tally = tally.with(same);
                }
            }
        }
    }
    Ok(None)
}

fn sit_on(
    rt: &HostRuntime,
    lines: &mut Lines,
    begin: Begin,
    tally: &mut Tally,
) -> anyhow::Result<Option<Begin>> {
    match begin.kind {
        0 => sit::<Plain>(rt, lines, begin, tally),
        1 => sit::<Elapsed>(rt, lines, begin, tally),
        2 => sit::<Mark>(rt, lines, begin, tally),
        _ => sit::<Turn>(rt, lines, begin, tally),
    }
}

fn first(lines: &mut Lines) -> anyhow::Result<Option<Begin>> {
    match lines.next() {
        Some(line) => match read_step(line?.as_slice()) {
            Some(Step::Open(begin)) => Ok(Some(begin)),
            _ => Ok(None),
        },
        None => Ok(None),
    }
}

pub fn run(rt: &HostRuntime) -> anyhow::Result<()> {
    let mut lines = BufReader::new(rt.alloc(), rt.stdin())?.split(rt.alloc(), b'\n');
    let mut tally = Tally {
        windows: 0,
        differ: 0,
    };
    let mut next = first(&mut lines)?;
    // Every loop has to be shown to end, and nothing else bounds how many sittings a sample has.
    for _ in 0..u64::MAX {
        let Some(begin) = next else {
            break;
        };
        next = sit_on(rt, &mut lines, begin, &mut tally)?;
    }
    let Tally { windows, differ } = tally;
    Ok(println!(rt; "{windows} windows compared, {differ} differ")?)
}
