//! The crew's label calculator: it answers questions about labels, a line each, from standard input.
#![tactic(auto)]

use calculator::reply_all;
use std::io::Read;

fn main(rt: HostRuntime) -> anyhow::Result<()> {
    let heap = rt.alloc();
    let mut text = Vec::new(heap);
    rt.stdin().read_to_end(&mut text)?;
    let replies = reply_all(heap, text.as_slice())?;
    rt.print(replies)?;
    Ok(())
}
