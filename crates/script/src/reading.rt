// Which call a line is.
ghost use Rattle.std.specs.Prelude.{◌≡◌, IfSome};
ghost use Rattle.script.specs.Reading.{call_line, one_field, read_call, two_fields};

use protocol::call::Call;

// One space and one digit.
fn one_field(fields: &[u8]) -> Option<u8>
    ensures { result ≡ one_field fields.now }
{
    match fields {
        [b' ', p @ b'0'..=b'9'] => Some(*p - b'0'),
        _ => None,
    }
}

// Two of these.
fn two_fields(fields: &[u8]) -> Option<(u8, u8)>
    ensures { result ≡ two_fields fields.now }
{
    let (first, second) = fields.split_at_checked(2)?;
    Some((one_field(first)?, one_field(second)?))
}

// The call that a line is, where it is one. A line that reads is the one that would be written.
#[tactic(auto, using(crate::proofs::ReadFacts::line_written))]
pub fn read_call(line: &[u8]) -> Option<Call>
    ensures value { result ≡ read_call line.now }
    ensures written { IfSome result (λ call. line.now ≡ call_line call) }
{
    let [letter, fields @ ..] = line else {
        return None;
    };
    // The first letter chooses.
    match *letter as char {
        'B' if fields.is_empty() => Some(Call::Begin),
        'S' => Some(Call::Step(one_field(fields)?)),
        'D' => {
            let (sender, receiver) = two_fields(fields)?;
            Some(Call::Deliver { sender, receiver })
        }
        'E' => {
            let (ledger, silent) = two_fields(fields)?;
            Some(Call::Expire { ledger, silent })
        }
        'X' => Some(Call::Stop(one_field(fields)?)),
        'R' => Some(Call::Restart(one_field(fields)?)),
        _ => None,
    }
}
