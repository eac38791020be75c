// Plays a script from standard input over the pool and the rows, and prints what a person must settle.
#![tactic(auto)]

use journals::rows::Rows;
use network::link::Network;
use pool::Pool;
use script::start::read_script;
use script::work::list_work;
use std::io;
use std::io::Write;

fn main(rt: HostRuntime) -> io::Result<()> {
    let heap = rt.alloc();
    let script = read_script(heap, rt.stdin())?;
    let text = list_work(heap, Pool::new(), Rows::new(), script.as_slice())?;
    rt.stdout().write_all(text.as_bytes())
}
