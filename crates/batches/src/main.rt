// Runs two whole batches, over the pool and the rows and over the lanes and the tape, and prints what each call did.
#![tactic(auto)]

use floor::floor::Floor;
use floor::opening::Opening;
use journals::codes::codes;
use journals::rows::Rows;
use journals::set::Journals;
use lanes::Lanes;
use ledgers::fault::Fault;
use network::link::Network;
use pool::Pool;
use protocol::call::{Answer, Call};
use protocol::delivery::Delivery;
use protocol::recovery::Recovery;
use std::io;
use tape::Tape;

// Both ledgers vote yes, and nobody stops.
const ALL_YES: [Call; 11] = [
    Call::Begin,
    Call::Step(0),
    Call::Deliver {
        sender: 0,
        receiver: 1,
    },
    Call::Step(1),
    Call::Deliver {
        sender: 1,
        receiver: 0,
    },
    Call::Step(0),
    Call::Step(0),
    Call::Deliver {
        sender: 0,
        receiver: 1,
    },
    Call::Step(1),
    Call::Step(1),
    Call::Deliver {
        sender: 1,
        receiver: 0,
    },
];

// Ledger 1 gives ledger 0 up while the order to post is on its way: both find that they disagree.
const EARLY_EXPIRY: [Call; 12] = [
    Call::Begin,
    Call::Step(0),
    Call::Deliver {
        sender: 0,
        receiver: 1,
    },
    Call::Step(1),
    Call::Deliver {
        sender: 1,
        receiver: 0,
    },
    Call::Step(0),
    Call::Step(0),
    Call::Expire {
        ledger: 1,
        silent: 0,
    },
    Call::Step(1),
    Call::Step(1),
    Call::Deliver {
        sender: 0,
        receiver: 1,
    },
    Call::Deliver {
        sender: 1,
        receiver: 0,
    },
];

// By cases: these words are the program's own, and a call is printed otherwise in a script.
fn print_call(rt: &HostRuntime, call: Call) -> io::Result<()> {
    match call {
        Call::Begin => print!(rt; "begin: "),
        Call::Step(ledger) => print!(rt; "step {ledger}: "),
        Call::Deliver { sender, receiver } => print!(rt; "deliver {sender} to {receiver}: "),
        Call::Expire { ledger, silent } => print!(rt; "{ledger} expires {silent}: "),
        Call::Stop(ledger) => print!(rt; "stop {ledger}: "),
        Call::Restart(ledger) => print!(rt; "restart {ledger}: "),
    }
}

// By cases, as the calls: the words are the program's own.
fn answer_word(answer: Answer) -> &'static str {
    match answer {
        Answer::Done => "done",
        Answer::Message(Delivery::Delivered) => "delivered",
        Answer::Message(Delivery::Discarded) => "discarded",
        Answer::Recovered(Recovery::Posted) => "posted",
        Answer::Recovered(Recovery::Dropped) => "dropped",
        Answer::Recovered(Recovery::Uncertain) => "uncertain",
    }
}

fn print_journal(rt: &HostRuntime, journals: &impl Journals, ledger: u8) -> io::Result<()> {
    print!(rt; "ledger {ledger} wrote")?;
    for code in codes(journals, ledger) {
        print!(rt; " {code}")?;
    }
    println!(rt)
}

fn run<N: Network + Drop, J: Journals + Drop>(
    rt: &HostRuntime,
    network: N,
    journals: J,
    calls: &[Call],
) -> io::Result<()> {
    let Opening { mut floor, answer } = Floor::open(network, journals, 2, &[1, 1]);
    if let Err(fault) = answer {
        return println!(rt; "refused with {}", fault.number());
    }
    for call in calls {
        print_call(rt, *call)?;
        match floor.call(*call) {
            Ok(answer) => println!(rt; "{}", answer_word(answer))?,
            Err(fault) => println!(rt; "refused with {}", fault.number())?,
        }
    }
    for ledger in 0..2 {
        if let Ok(journals) = floor.journals_with(ledger) {
            print_journal(rt, journals, ledger)?;
        }
    }
    println!(rt; "messages sent: {}", floor.total())?;
    let rest = if floor.is_at_rest() { "yes" } else { "no" };
    println!(rt; "at rest: {rest}")
}

fn main(rt: HostRuntime) -> io::Result<()> {
    println!(rt; "all yes, over the pool and the rows")?;
    run(&rt, Pool::new(), Rows::new(), &ALL_YES)?;
    println!(rt; "all yes, over the lanes and the tape")?;
    run(&rt, Lanes::new(), Tape::new(), &ALL_YES)?;
    println!(rt; "an early expiry, over the pool and the rows")?;
    run(&rt, Pool::new(), Rows::new(), &EARLY_EXPIRY)?;
    println!(rt; "an early expiry, over the lanes and the tape")?;
    run(&rt, Lanes::new(), Tape::new(), &EARLY_EXPIRY)
}
