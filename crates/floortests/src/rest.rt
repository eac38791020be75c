// When an expiry is on time, and when a floor is at rest.
use floor::floor::Floor;
use floor::opening::Opening;
use journals::rows::Rows;
use journals::set::Journals;
use lanes::Lanes;
use ledgers::fault::refusal;
use network::link::Network;
use pool::Pool;
use protocol::call::Call;
use std::process::Abort;
use std::test::Fail;
use tape::Tape;

// A call, and what is told after it: whether an expiry of ledger 0 is on time, and whether the floor is at rest.
struct Moment {
    call: Call,
    on_time: bool,
    at_rest: bool,
}

// The coordinator stops with its Prepare on its way; once that is in, ledger 1 gives it up and drops.
const STOPPED_COORDINATOR: [Moment; 11] = [
    Moment {
        call: Call::Begin,
        on_time: false,
        at_rest: false,
    },
    Moment {
        call: Call::Step(0),
        on_time: false,
        at_rest: false,
    },
    Moment {
        call: Call::Stop(0),
        on_time: false,
        at_rest: false,
    },
    Moment {
        call: Call::Deliver {
            sender: 0,
            receiver: 1,
        },
        on_time: true,
        at_rest: false,
    },
    Moment {
        call: Call::Step(1),
        on_time: true,
        at_rest: false,
    },
    Moment {
        call: Call::Deliver {
            sender: 1,
            receiver: 0,
        },
        on_time: true,
        at_rest: false,
    },
    Moment {
        call: Call::Expire {
            ledger: 1,
            silent: 0,
        },
        on_time: true,
        at_rest: false,
    },
    Moment {
        call: Call::Step(1),
        on_time: true,
        at_rest: false,
    },
    Moment {
        call: Call::Step(1),
        on_time: true,
        at_rest: false,
    },
    Moment {
        call: Call::Deliver {
            sender: 1,
            receiver: 0,
        },
        on_time: true,
        at_rest: true,
    },
    Moment {
        call: Call::Restart(0),
        on_time: true,
        at_rest: true,
    },
];

fn stopped_coordinator<N: Network + Drop, J: Journals + Drop>(
    rt: &impl Abort,
    network: N,
    journals: J,
) -> Result<(), Fail> {
    let Opening { mut floor, answer } = Floor::open(network, journals, 2, &[1, 1]);
    answer?;
    assert!(rt; floor.is_at_rest());
    for moment in &STOPPED_COORDINATOR {
        floor.call(moment.call)?;
        assert_eq!(rt; floor.is_on_time(0)?, moment.on_time);
        assert_eq!(rt; floor.is_at_rest(), moment.at_rest);
    }
    assert_eq!(rt; refusal(floor.is_on_time(2)), Some(2));
    Ok(())
}

#[test]
fn a_stopped_coordinator_is_missed_until_the_rest(rt: HostRuntime) -> Result<(), Fail> {
    stopped_coordinator(&rt, Pool::new(), Rows::new())?;
    stopped_coordinator(&rt, Lanes::new(), Tape::new())
}

#[test]
fn a_closed_floor_is_at_rest(rt: HostRuntime) {
    let Opening { floor, answer: _ } = Floor::open(Pool::new(), Rows::new(), 9, &[1; 9]);
    assert!(rt; floor.is_at_rest());
    assert_eq!(rt; refusal(floor.is_on_time(0)), Some(2));
}
