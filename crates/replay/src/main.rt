//! Replays stored cases: rolls and call streams, each answered under its label, one line for each.
#![tactic(auto)]

use std::io::Read;

mod cases;
mod replays;

use replays::replay_all;

fn main(rt: HostRuntime) -> anyhow::Result<()> {
    let heap = rt.alloc();
    let mut cases = Vec::new(heap);
    rt.stdin().read_to_end(&mut cases)?;
    let text = replay_all(heap, cases.as_slice())?;
    rt.print(text)?;
    Ok(())
}
