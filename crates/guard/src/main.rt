//! The guard at the house label: it loads the file `roll` of the working directory, answers the calls from standard input one after another, and prints a
//! line for each.
#![tactic(auto)]

use std::io::Read;
use std::{fs, io};
use transcript::house_transcript;

/// The bytes of the file `roll`: none where there is no such file.
// Kept: in five programs, as a crate has one stored run; a library cannot promise what a file holds, and each public function here has a contract.
fn read_roll(rt: &HostRuntime) -> io::Result<Vec<u8>> {
    match fs::read(rt, "roll") {
        Err(e) if e.kind() == io::ErrorKind::NotFound => Ok(Vec::new(rt.alloc())),
        read => read,
    }
}

fn main(rt: HostRuntime) -> anyhow::Result<()> {
    let heap = rt.alloc();
    let roll = read_roll(&rt)?;
    let mut calls = Vec::new(heap);
    rt.stdin().read_to_end(&mut calls)?;
    let text = house_transcript(heap, roll.as_slice(), calls.as_slice())?;
    rt.print(text)?;
    Ok(())
}
