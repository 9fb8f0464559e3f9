// bench: times the library on transcripts that it makes in memory: packed lines of as many MiB as its first
// argument says, or 1, and as many lines as its second says, or 30000, that a tracker is asked for.
// It prints what was found to standard output, and nanoseconds to standard error.
#![tactic(auto)]

mod lines;
mod runs;
mod windows;

use std::env;

// The number that is the nth argument, or another where there is none.
fn argument(rt: &HostRuntime, n: usize, other: usize) -> anyhow::Result<usize> {
    match env::args(rt)?.nth(n) {
        Some(word) => Ok(word.as_str().parse::<usize>()?),
        None => Ok(other),
    }
}

fn main(rt: HostRuntime) -> anyhow::Result<()> {
    let mib = argument(&rt, 1, 1)?;
    runs::packed(&rt, mib.saturating_mul(1048576))?;
    windows::windows(&rt, argument(&rt, 2, 30000)?)
}
