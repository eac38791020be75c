// The refusals of each call, in their order, and what a person is told.
use floor::floor::Floor;
use floor::opening::Opening;
use journals::rows::Rows;
use ledgers::fault::refusal;
use pool::Pool;
use protocol::call::Call;
use protocol::note::{Note, Reason};
use std::test::Fail;

// Each call, and the number of its refusal, if it is refused.
const STOPS_AND_SILENCE: [(Call, Option<u8>); 17] = [
    (Call::Step(2), Some(2)),
    (Call::Step(0), Some(6)),
    (Call::Restart(0), Some(4)),
    (
        Call::Expire {
            ledger: 0,
            silent: 1,
        },
        Some(9),
    ),
    (
        Call::Expire {
            ledger: 1,
            silent: 1,
        },
        Some(2),
    ),
    (
        Call::Deliver {
            sender: 0,
            receiver: 1,
        },
        Some(7),
    ),
    (
        Call::Deliver {
            sender: 1,
            receiver: 1,
        },
        Some(2),
    ),
    (Call::Begin, None),
    (Call::Begin, Some(5)),
    (Call::Step(0), None),
    (
        Call::Deliver {
            sender: 0,
            receiver: 1,
        },
        None,
    ),
    (Call::Stop(1), None),
    (Call::Stop(1), Some(3)),
    (Call::Step(1), Some(3)),
    (Call::Restart(1), None),
    (Call::Restart(1), Some(4)),
    (Call::Stop(2), Some(2)),
];

#[test]
fn each_call_refuses_in_its_order(rt: HostRuntime) -> Result<(), Fail> {
    let Opening { mut floor, answer } = Floor::open(Pool::new(), Rows::new(), 2, &[1, 1]);
    answer?;
    for (call, refused) in STOPS_AND_SILENCE {
        assert_eq!(rt; refusal(floor.call(call)), refused);
    }
    let blank = Note {
        ledger: 9,
        reason: Reason::Disputed,
    };
    assert_eq!(rt; refusal(floor.worklist(&mut [blank; 0])), Some(14));
    let mut list = [blank; 3];
    assert_eq!(rt; floor.worklist(&mut list)?, 1);
    let found = Note {
        ledger: 1,
        reason: Reason::Uncertain,
    };
    assert_eq!(rt; list, [found, blank, blank]);
    assert_eq!(rt; list[0].reason.number(), 1);
    Ok(())
}
