// replay: runs recorded sittings through the library, and compares each window with the one that was recorded.
// It prints how many windows were compared, and how many differ.
#![tactic(auto)]

mod run;
mod sample;

fn main(rt: HostRuntime) -> anyhow::Result<()> {
    run::run(&rt)
}
