// readback: reads commands from standard input, one to a line, and answers each before it reads the next.
#![tactic(auto)]

mod answer;
mod args;
mod asks;
mod calls;
mod command;
mod explains;
mod holders;
mod keys;
mod opens;
mod packs;
mod script;
mod session;

use script::run;

fn main(rt: HostRuntime) -> anyhow::Result<()> {
    run(&rt)
}
