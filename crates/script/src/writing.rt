// How a call is written as a line.
ghost use Rattle.std.specs.Prelude.{◌≡◌, ◌≤◌, length, take, Some, MatchOption};
ghost use Rattle.std.specs.Option.{option_map};
ghost use Rattle.script.specs.Reading.{Writable, call_line, read_call, with_fields};

use protocol::call::Call;

// The text of a line, at the front of its bytes. With plain places, since a vector of the library's is no `Copy`.
#[derive(Clone, Copy)]
pub struct CallLine {
    pub bytes: [u8; 5],
    pub len: usize,
}

// A letter and fields behind it, where each of them is a digit.
fn written(letter: u8, fields: &[u8]) -> Option<CallLine>
    requires { length fields.now ≤ 2 }
    ensures { option_map (λ line. take line.len line.bytes) result ≡ with_fields letter fields.now }
{
    let (bytes, len) = match fields {
        [] => ([letter, 0, 0, 0, 0], 1),
        [p] if *p <= 9 => ([letter, b' ', b'0' + *p, 0, 0], 3),
        [p, q] if *p <= 9 && *q <= 9 => ([letter, b' ', b'0' + *p, b' ', b'0' + *q], 5),
        _ => return None,
    };
    Some(CallLine { bytes, len })
}

// The line of a call, where each of its ledgers has a digit. What is written reads as the same call again.
pub fn call_line(call: Call) -> Option<CallLine>
    ensures value { MatchOption result (Writable call → ⊥) (λ line. (Writable call) × (take line.len line.bytes ≡ call_line call)) }
    ensures again { Writable call → read_call (call_line call) ≡ Some call }
{
    match call {
        Call::Begin => written(b'B', &[]),
        Call::Step(p) => written(b'S', &[p]),
        Call::Deliver { sender, receiver } => written(b'D', &[sender, receiver]),
        Call::Expire { ledger, silent } => written(b'E', &[ledger, silent]),
        Call::Stop(p) => written(b'X', &[p]),
        Call::Restart(p) => written(b'R', &[p]),
    }
}
