// Whole batches, over the pool and the rows, and over the lanes and the tape.
use floor::floor::Floor;
use floor::opening::Opening;
use journals::rows::Rows;
use journals::set::Journals;
use lanes::Lanes;
use ledgers::fault::refusal;
use network::link::Network;
use pool::Pool;
use std::process::Abort;
use std::test::Fail;
use tape::Tape;

// The ledger wrote these codes and no other.
fn check_journal<N: Network, J: Journals>(
    rt: &impl Abort,
    floor: &Floor<N, J>,
    ledger: u8,
    codes: &[u8],
) -> Result<(), Fail> {
    for (place, code) in codes.iter().enumerate() {
        assert_eq!(rt; floor.read(ledger, place)?, *code);
    }
    assert_eq!(rt; refusal(floor.read(ledger, codes.len())), Some(7));
    Ok(())
}

// Two ledgers vote yes, and the coordinator has sent its order.
fn order_sent<N: Network, J: Journals>(
    rt: &impl Abort,
    floor: &mut Floor<N, J>,
) -> Result<(), Fail> {
    floor.begin()?;
    floor.step(0)?;
    floor.deliver(0, 1)?;
    floor.step(1)?;
    floor.deliver(1, 0)?;
    floor.step(0)?;
    floor.step(0)?;
    check_journal(rt, floor, 0, &[1, 4, 8])
}

fn all_yes<N: Network + Drop, J: Journals + Drop>(
    rt: &impl Abort,
    network: N,
    journals: J,
) -> Result<(), Fail> {
    let Opening { mut floor, answer } = Floor::open(network, journals, 2, &[1, 1]);
    answer?;
    order_sent(rt, &mut floor)?;
    floor.deliver(0, 1)?;
    floor.step(1)?;
    floor.step(1)?;
    floor.deliver(1, 0)?;
    check_journal(rt, &floor, 0, &[1, 4, 8])?;
    check_journal(rt, &floor, 1, &[2, 6, 8])?;
    assert_eq!(rt; floor.total(), 4);
    Ok(())
}

// Ledger 1 gives the coordinator up while the order is on its way: both write the dispute.
fn early_expiry<N: Network + Drop, J: Journals + Drop>(
    rt: &impl Abort,
    network: N,
    journals: J,
) -> Result<(), Fail> {
    let Opening { mut floor, answer } = Floor::open(network, journals, 2, &[1, 1]);
    answer?;
    order_sent(rt, &mut floor)?;
    floor.expire(1, 0)?;
    floor.step(1)?;
    floor.step(1)?;
    floor.deliver(0, 1)?;
    floor.deliver(1, 0)?;
    check_journal(rt, &floor, 0, &[1, 4, 8, 10])?;
    check_journal(rt, &floor, 1, &[2, 5, 9, 10])
}

fn refused_openings<N: Network + Drop, J: Journals + Drop>(
    rt: &impl Abort,
    network: N,
    journals: J,
) {
    let Opening { mut floor, answer } = Floor::open(network, journals, 2, &[1, 0]);
    assert_eq!(rt; refusal(answer), Some(1));
    assert_eq!(rt; refusal(floor.begin()), Some(2));
    assert_eq!(rt; refusal(floor.status(0)), Some(2));
    assert_eq!(rt; floor.total(), 0);
}

#[test]
fn a_batch_that_all_want_is_posted(rt: HostRuntime) -> Result<(), Fail> {
    all_yes(&rt, Pool::new(), Rows::new())?;
    all_yes(&rt, Lanes::new(), Tape::new())
}

#[test]
fn an_early_expiry_is_disputed(rt: HostRuntime) -> Result<(), Fail> {
    early_expiry(&rt, Pool::new(), Rows::new())?;
    early_expiry(&rt, Lanes::new(), Tape::new())
}

#[test]
fn a_misread_opening_gives_a_closed_floor(rt: HostRuntime) {
    refused_openings(&rt, Pool::new(), Rows::new());
    refused_openings(&rt, Lanes::new(), Tape::new());
}
