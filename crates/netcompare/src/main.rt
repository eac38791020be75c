// Pushes one list of calls through the pool and through the lanes, and prints where they differ.
#![tactic(auto)]

use lanes::Lanes;
use ledgers::fault::Fault;
use network::fault::{NetworkFault, NetworkRefusal};
use network::link::{Link, Network};
use network::message::{Decision, Message, Vote};
use pool::Pool;
use std::io;

// How many calls are made.
const CALLS: u32 = 300;

#[derive(Clone, Copy)]
enum Deed {
    Put(Message),
    Take,
    Look,
    Count,
}

#[derive(Clone, Copy)]
struct Call {
    link: Link,
    deed: Deed,
}

// What a call answers where it is taken.
#[derive(Clone, Copy, PartialEq, Eq)]
enum Answer {
    Done,
    Passed(Message),
    Counted(usize),
}

fn perform<N: Network>(network: &mut N, call: Call) -> Result<Answer, NetworkFault> {
    let Link { sender, receiver } = call.link;
    Ok(match call.deed {
        Deed::Put(message) => {
            network.put(sender, receiver, message)?;
            Answer::Done
        }
        Deed::Take => Answer::Passed(network.take(sender, receiver)?),
        Deed::Look => Answer::Passed(network.look(sender, receiver)?),
        Deed::Count => Answer::Counted(network.count(sender, receiver)?),
    })
}

// The two numbers that the output has of an outcome: the refusal's and the answer's, each 0 where there is none.
fn printed(outcome: Result<Answer, NetworkFault>) -> (u8, usize) {
    match outcome {
        Ok(Answer::Done) => (0, 0),
        Ok(Answer::Passed(message)) => (0, message.kind() as usize),
        Ok(Answer::Counted(count)) => (0, count),
        Err(fault) => (fault.number(), 0),
    }
}

fn message_of(bits: u32) -> Message {
    match bits % 5 {
        0 => Message::Prepare,
        1 => Message::Vote(Vote::Yes),
        2 => Message::Order(Decision::Drop),
        3 => Message::Ask { round: 1 },
        _ => Message::Reply {
            round: 1,
            decision: None,
        },
    }
}

// A call that the bits pick: mostly on a few links, now and then on what is no link.
fn call_of(bits: u32) -> Call {
    let link = Link {
        sender: (bits / 8 % 3) as u8,
        receiver: (bits / 64 % 4) as u8,
    };
    let deed = match bits / 512 % 8 {
        0..=3 => Deed::Put(message_of(bits / 4096)),
        4 | 5 => Deed::Take,
        6 => Deed::Look,
        _ => Deed::Count,
    };
    Call { link, deed }
}

fn main(rt: HostRuntime) -> io::Result<()> {
    let mut pool = Pool::new();
    let mut lanes = Lanes::new();
    let depth = <Lanes as Network>::link_depth();
    let mut bits = 1u32;
    for number in 0..CALLS {
        bits = bits.wrapping_mul(1664525).wrapping_add(1013904223);
        let call = call_of(bits / 256);
        let a = perform(&mut pool, call);
        if a.is_err_and(|fault| fault.refusal == NetworkRefusal::LinkFull) {
            // The lanes would take it; they are spared it, so that later calls still compare.
            let n = lanes
                .count(call.link.sender, call.link.receiver)
                .unwrap_or(0);
            println!(rt; "call {number}: the pool's link is full, the lanes hold {n} of {depth}")?;
            continue;
        }
        let b = perform(&mut lanes, call);
        if a != b {
            let ((x, y), (u, v)) = (printed(a), printed(b));
            println!(rt; "call {number}: pool {x} {y}, lanes {u} {v}")?;
        }
    }
    println!(rt; "{CALLS} calls made")
}
