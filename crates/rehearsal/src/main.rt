// Rehearses a script from standard input over the pool and the rows, and prints what each call did.
#![tactic(auto)]

use journals::rows::Rows;
use network::link::Network;
use pool::Pool;
use script::rehearsal::rehearse;
use script::start::read_script;
use std::io;
use std::io::Write;

fn main(rt: HostRuntime) -> io::Result<()> {
    let heap = rt.alloc();
    let script = read_script(heap, rt.stdin())?;
    let rehearsal = rehearse(heap, Pool::new(), Rows::new(), script.as_slice())?;
    rt.stdout().write_all(rehearsal.text.as_bytes())
}
