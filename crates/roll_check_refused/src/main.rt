//! Prints the file `roll` of the working directory in words: what it says, or why it is refused.
#![tactic(auto)]

use listing::report;
use std::{fs, io};

/// The bytes of the file `roll`: none where there is no such file.
// Kept: in five programs, as a crate has one stored run; a library cannot promise what a file holds, and each public function here has a contract.
fn read_roll(rt: &HostRuntime) -> io::Result<Vec<u8>> {
    match fs::read(rt, "roll") {
        Err(e) if e.kind() == io::ErrorKind::NotFound => Ok(Vec::new(rt.alloc())),
        read => read,
    }
}

fn main(rt: HostRuntime) -> anyhow::Result<()> {
    let bytes = read_roll(&rt)?;
    let text = report(rt.alloc(), bytes.as_slice())?;
    rt.print(text)?;
    Ok(())
}
