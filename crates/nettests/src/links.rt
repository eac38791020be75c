// The same calls on the pool and on the lanes.
use lanes::Lanes;
use ledgers::fault::{Fault, refusal};
use network::fault::{NetworkFault, NetworkRefusal};
use network::forward::forward_all;
use network::link::{Link, Network};
use network::message::{Decision, Message, Vote};
use pool::Pool;
use std::process::Abort;
use std::test::Fail;

// The kind of the message that was answered.
fn kind(answer: Result<Message, NetworkFault>) -> Option<u8> {
    answer.ok().map(|message| message.kind())
}

// Fills a link, and empties it again in the order of sending.
fn fill_and_empty<N: Network>(rt: &impl Abort, network: &mut N) -> Result<(), Fail> {
    let depth = N::link_depth();
    assert_eq!(rt; refusal(network.put(3, 4, Message::Vote(Vote::No))), None);
    for _ in 1..depth {
        assert_eq!(rt; refusal(network.put(3, 4, Message::Prepare)), None);
    }
    assert_eq!(rt; refusal(network.put(3, 4, Message::Prepare)), Some(8));
    assert_eq!(rt; network.count(3, 4)?, depth);
    assert_eq!(rt; network.count(4, 3)?, 0);
    assert_eq!(rt; kind(network.look(3, 4)), Some(2));
    assert_eq!(rt; kind(network.take(3, 4)), Some(2));
    for _ in 1..depth {
        assert_eq!(rt; kind(network.take(3, 4)), Some(1));
    }
    assert_eq!(rt; kind(network.take(3, 4)), None);
    Ok(())
}

// Pairs that are no link.
fn no_links<N: Network>(rt: &impl Abort, network: &mut N) {
    let pairs = [(0, 0), (7, 7), (0, 8), (8, 0), (255, 1), (3, 200)];
    for (sender, receiver) in pairs {
        assert_eq!(rt;
            refusal(network.put(sender, receiver, Message::Prepare)),
            Some(2)
        );
        assert_eq!(rt; kind(network.take(sender, receiver)), None);
        assert_eq!(rt; kind(network.look(sender, receiver)), None);
        assert!(rt; network.count(sender, receiver).is_err());
    }
}

// A ring is gone round several times.
fn round_and_round<N: Network>(rt: &impl Abort, network: &mut N) -> Result<(), Fail> {
    for _ in 0..9 {
        assert_eq!(rt;
            refusal(network.put(7, 0, Message::Order(Decision::Post))),
            None
        );
        assert_eq!(rt; kind(network.take(7, 0)), Some(3));
    }
    assert_eq!(rt; network.count(7, 0)?, 0);
    Ok(())
}

// Moves two messages on, and stops at a refusal.
fn forwards<N: Network>(rt: &impl Abort, network: &mut N) -> Result<(), Fail> {
    let from = Link {
        sender: 1,
        receiver: 2,
    };
    let to = Link {
        sender: 2,
        receiver: 1,
    };
    assert_eq!(rt; refusal(network.put(1, 2, Message::Ask { round: 1 })), None);
    assert_eq!(rt; refusal(network.put(1, 2, Message::Prepare)), None);
    assert_eq!(rt; refusal(forward_all(network, from, to, 9)), Some(7));
    assert_eq!(rt; network.count(1, 2)?, 0);
    assert_eq!(rt; kind(network.take(2, 1)), Some(4));
    assert_eq!(rt; kind(network.take(2, 1)), Some(1));
    Ok(())
}

fn exercise<N: Network>(rt: &impl Abort, network: &mut N) -> Result<(), Fail> {
    fill_and_empty(rt, network)?;
    no_links(rt, network);
    round_and_round(rt, network)?;
    forwards(rt, network)
}

#[test]
fn pool_and_lanes(rt: HostRuntime) -> Result<(), Fail> {
    assert_eq!(rt; <Pool as Network>::link_depth(), 2);
    assert_eq!(rt; <Lanes as Network>::link_depth(), 4);
    let mut pool = Pool::new();
    exercise(&rt, &mut pool)?;
    let mut lanes = Lanes::new();
    exercise(&rt, &mut lanes)
}

#[test]
fn faults(rt: HostRuntime) {
    let pool = Pool::new();
    let fault = NetworkFault::on(5, 6, NetworkRefusal::NothingThere);
    assert_eq!(rt; pool.look(5, 6), Err(fault));
    assert_eq!(rt; fault.number(), 7);
    assert_eq!(rt; fault.layer(), 'N');
    assert_eq!(rt; fault.sender, 5);
    assert_eq!(rt; fault.receiver, 6);
}
