// The calls of a script, one after the other.
ghost use Rattle.std.specs.Prelude.{◌≡◌, ◌≤◌, ◌++◌, length, drop, string_bytes, OnOk};
ghost use Rattle.std.specs.Iterator.{YieldsFirst, item_count};
ghost use Rattle.floor.specs.State.{state};
ghost use Rattle.protocol.specs.Plans.{after_all};
ghost use Rattle.script.specs.Lines.{lines_of};
ghost use Rattle.script.specs.Rehearsal.{calls_of, calls_text, raised, reads_from};

use crate::fault::{ScriptRefusal, bad_line};
use crate::line::next_line;
use crate::reading::read_call;
use crate::texts::{push_answer, push_fault};
use floor::floor::Floor;
use journals::set::Journals;
use network::link::Network;
use protocol::call::{Answer, Call};
use protocol::fault::FloorFault;
use std::alloc::AllocError;

// The floor's fault becomes the script's, whole.
pub(crate) fn raised(answer: Result<Answer, FloorFault>) -> Result<Answer, ScriptRefusal>
    ensures { result ≡ raised answer }
{
    Ok(answer?)
}

// The lines of a script from a start on, each as what it reads as. A last line that does not end is no call.
#[derive(Drop)]
struct Calls<'a> {
    script: &'a [u8],
    start: usize,
}

impl Iterator for Calls<'_> {
    type Item = Option<Call>;

    ghost next_gives = { YieldsFirst (λ s. reads_from s.start s.script.now) };

    ghost remaining = { item_count (λ s. reads_from s.start s.script.now) };

    #[tactic(auto, using(crate::proofs::PlayFacts::left_alone))]
    fn next(&mut self) -> Option<Option<Call>> {
        if self.start >= self.script.len() {
            return None;
        }
        let Some(line) = next_line(self.script, self.start) else {
            self.start = self.script.len();
            return Some(None);
        };
        self.start = line.next;
        Some(read_call(line.text))
    }
}

// Makes the calls from a start on, the first of them line 2, and adds a line for each.
// The script's bound was checked at its start; it is asked for here alone, where lines are counted.
pub(crate) fn play_calls<N: Network, J: Journals>(
    text: &mut String,
    floor: &mut Floor<N, J>,
    script: &[u8],
    start: usize,
) -> Result<(), AllocError>
    requires { length script.now ≤ 65536 }
    ensures text { OnOk result (string_bytes text.new ≡ string_bytes text.old ++ calls_text N.DEPTH (state floor.old) 2 (lines_of (drop start script.now)).whole (lines_of (drop start script.now)).left) }
    ensures floor { OnOk result (state floor.new ≡ after_all N.DEPTH (state floor.old) (calls_of (lines_of (drop start script.now)).whole)) }
{
    for (place, call) in (Calls { script, start }).enumerate() {
        let number = place + 2;
        let Some(call) = call else {
            return push_fault(text, bad_line(number));
        };
        let answer = raised(floor.call(call));
        push_answer(text, number, answer)?;
    }
    Ok(())
}
