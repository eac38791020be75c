// Reads a tape from standard input, and prints what every ledger wrote, or where the tape is torn.
#![tactic(auto)]

use report::verdict::tape_verdict;
use std::io;
use std::io::{Read, Write};

fn main(rt: HostRuntime) -> io::Result<()> {
    let heap = rt.alloc();
    let mut tape = Vec::new(heap);
    rt.stdin().read_to_end(&mut tape)?;
    let text = tape_verdict(heap, tape.as_slice())?;
    rt.stdout().write_all(text.as_bytes())
}
