// The rehearsal of a script: what each call did, and what every ledger wrote.
ghost use Rattle.std.specs.Prelude.{◌≡◌, IfOk, string_bytes};
ghost use Rattle.floor.specs.State.{state};
ghost use Rattle.script.specs.Rehearsal.{RehearsalPromised, opening_of, play_of, rehearsal_after, rehearsal_text};

use crate::calls::play_calls;
use crate::fault::ScriptFault;
use crate::start::{Started, open_script};
use crate::texts::{push_end, push_fault};
use floor::floor::Floor;
use journals::set::Journals;
use network::link::Network;
use std::alloc::{AllocError, Global};

#[derive(Drop)]
pub struct Rehearsal<N: Network, J: Journals> {
    // As the script leaves it; a closed one where the script opens none.
    pub floor: Floor<N, J>,
    pub text: String,
    // Whether the first line opened the floor, and why not.
    pub opening: Result<(), ScriptFault>,
}

// Rehearses a script over this network and these journals, which come as two: together they are a floor.
// The promises hold of the script's own run.
pub fn rehearse<N: Network + Drop, J: Journals + Drop>(
    heap: Global,
    network: N,
    journals: J,
    script: &[u8],
) -> Result<Rehearsal<N, J>, AllocError>
    ensures text { IfOk result (λ it. string_bytes it.text ≡ rehearsal_text N.DEPTH (N.links network) (J.entries journals) script.now) }
    ensures floor { IfOk result (λ it. state it.floor ≡ rehearsal_after N.DEPTH (N.links network) (J.entries journals) script.now) }
    ensures opening { IfOk result (λ it. it.opening ≡ opening_of (play_of (N.links network) (J.entries journals) script.now)) }
    ensures promises { IfOk result (λ it. RehearsalPromised N.DEPTH (N.links network) (J.entries journals) script.now (state it.floor)) }
{
    rehearsed(heap, network, journals, script)
}

// The promises follow from what the floor is afterwards, so they are shown of both endings at once, above.
fn rehearsed<N: Network + Drop, J: Journals + Drop>(
    heap: Global,
    network: N,
    journals: J,
    script: &[u8],
) -> Result<Rehearsal<N, J>, AllocError>
    ensures text { IfOk result (λ it. string_bytes it.text ≡ rehearsal_text N.DEPTH (N.links network) (J.entries journals) script.now) }
    ensures floor { IfOk result (λ it. state it.floor ≡ rehearsal_after N.DEPTH (N.links network) (J.entries journals) script.now) }
    ensures opening { IfOk result (λ it. it.opening ≡ opening_of (play_of (N.links network) (J.entries journals) script.now)) }
{
    let Started { mut floor, answer } = open_script(network, journals, script);
    let mut text = String::new(heap);
    match answer {
        Ok(next) => {
            play_calls(&mut text, &mut floor, script, next)?;
            push_end(&mut text, &floor)?;
            Ok(Rehearsal {
                floor,
                text,
                opening: Ok(()),
            })
        }
        Err(fault) => {
            push_fault(&mut text, fault)?;
            Ok(Rehearsal {
                floor,
                text,
                opening: Err(fault),
            })
        }
    }
}
