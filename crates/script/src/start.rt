// How a script starts: its first line, and the floor that this opens.
ghost use Rattle.std.specs.Prelude.{◌≡◌, ◌≤◌, length, take, drop, IfSome, IfOk, Ok, Err, MatchResult};
ghost use Rattle.floor.specs.State.{state};
ghost use Rattle.protocol.specs.Opening.{closed, open_after, open_answer};
ghost use Rattle.script.specs.First.{first_of};
ghost use Rattle.script.specs.Lines.{lines_of};
ghost use Rattle.script.specs.Rehearsal.{play_of, play_start, start_of, started};

use crate::fault::{ScriptFault, bad_line};
use crate::first::{FirstLine, read_first};
use crate::line::next_line;
use floor::floor::Floor;
use floor::opening::Opening;
use journals::set::Journals;
use network::link::Network;
use std::alloc::Global;
use std::io;
use std::io::Read;

// The most bytes that a script has.
pub const LIMIT: usize = 65_536;

// Reads a script. One byte more than a script may have shows that it is too long.
pub fn read_script<R: Read + Drop>(heap: Global, source: R) -> io::Result<Vec<u8>>
    ensures { IfOk result (λ script. IfSome (R.remaining source) (λ bytes. script.items ≡ take 65537 bytes)) }
{
    let mut script = Vec::new(heap);
    source.take(LIMIT as u64 + 1).read_to_end(&mut script)?;
    Ok(script)
}

// What the first line tells, and where the second one starts.
#[derive(Clone, Copy)]
pub struct StartLine {
    pub first: FirstLine,
    pub next: usize,
}

fn start_line(script: &[u8]) -> Result<StartLine, ScriptFault>
    ensures start { started script.now result ≡ start_of script.now }
    ensures short { IfOk result (λ start. (length script.now ≤ 65536) × (start.first.ledgers ≤ 9)) }
{
    if script.len() > LIMIT {
        return Err(bad_line(0));
    }
    let line = next_line(script, 0).ok_or(bad_line(1))?;
    let first = read_first(line.text).ok_or(bad_line(1))?;
    Ok(StartLine {
        first,
        next: line.next,
    })
}

// A floor, and where the calls that are to be made on it start.
#[derive(Drop)]
pub(crate) struct Started<N: Network, J: Journals> {
    pub(crate) floor: Floor<N, J>,
    pub(crate) answer: Result<usize, ScriptFault>,
}

// A floor that knows no ledger.
fn closed_floor<N: Network, J: Journals>(network: N, journals: J) -> Floor<N, J>
    ensures { state result ≡ closed (N.links network) (J.entries journals) }
{
    let Opening { floor, answer: _ } = Floor::open(network, journals, 0, &[]);
    floor
}

// Opens the floor of a first line.
fn open_floor<N: Network, J: Journals>(network: N, journals: J, first: FirstLine) -> Opening<N, J>
    requires { first.ledgers ≤ 9 }
    ensures answer { result.answer ≡ open_answer (N.links network) (J.entries journals) (first_of first).ledgers (first_of first).votes }
    ensures after { state result.floor ≡ open_after (N.links network) (J.entries journals) (first_of first).ledgers (first_of first).votes }
{
    let votes = &first.votes[..first.ledgers as usize];
    Floor::open(network, journals, first.ledgers, votes)
}

// Opens the floor that the first line of a script tells of.
pub(crate) fn open_script<N: Network, J: Journals>(
    network: N,
    journals: J,
    script: &[u8],
) -> Started<N, J>
    ensures { MatchResult result.answer (λ next. (play_of (N.links network) (J.entries journals) script.now ≡ Ok (record { floor = state result.floor; lines = lines_of (drop next script.now) })) × (length script.now ≤ 65536)) (λ fault. (play_of (N.links network) (J.entries journals) script.now ≡ Err fault) × (state result.floor ≡ closed (N.links network) (J.entries journals))) }
{
    match start_line(script) {
        Ok(start) => {
            let Opening { floor, answer } = open_floor(network, journals, start.first);
            let answer = answer.map(|()| start.next).map_err(|fault| ScriptFault {
                line: 1,
                refusal: fault.into(),
            });
            Started { floor, answer }
        }
        Err(fault) => Started {
            floor: closed_floor(network, journals),
            answer: Err(fault),
        },
    }
}
