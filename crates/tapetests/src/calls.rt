// The same calls on the rows and on the tape.
use journals::entry::{Entry, NoEntry};
use journals::rows::Rows;
use journals::set::Journals;
use ledgers::fault::{Fault, refusal};
use std::process::Abort;
use std::test::Fail;
use tape::Tape;

fn exercise<J: Journals>(rt: &impl Abort, journals: &mut J) -> Result<(), Fail> {
    // Ledger, code, refusal: an unknown ledger goes before an unknown code.
    let appends = [
        (0, 1, None),
        (7, 10, None),
        (0, 4, None),
        (8, 1, Some(2)),
        (8, 0, Some(2)),
        (255, 11, Some(2)),
        (0, 0, Some(13)),
        (0, 11, Some(13)),
    ];
    for (ledger, code, refused) in appends {
        assert_eq!(rt; refusal(journals.append(ledger, code)), refused);
    }
    for _ in 0..6 {
        assert_eq!(rt; refusal(journals.append(0, 9)), None);
    }
    assert_eq!(rt; refusal(journals.append(0, 9)), Some(12));
    assert_eq!(rt; refusal(journals.append(0, 0)), Some(13));
    assert_eq!(rt; journals.count(0)?, 8);
    assert_eq!(rt; journals.count(7)?, 1);
    assert_eq!(rt; journals.count(3)?, 0);
    assert_eq!(rt; journals.read(0, 1)?, 4);
    assert_eq!(rt; journals.read(0, 7)?, 9);
    assert_eq!(rt; journals.read(7, 0)?, 10);
    assert_eq!(rt; refusal(journals.read(0, 8)), Some(7));
    assert_eq!(rt; refusal(journals.read(3, 0)), Some(7));
    assert_eq!(rt; refusal(journals.read(8, 0)), Some(2));
    Ok(())
}

#[test]
fn both_sets(rt: HostRuntime) -> Result<(), Fail> {
    let mut rows = Rows::new();
    exercise(&rt, &mut rows)?;
    let mut tape = Tape::new();
    exercise(&rt, &mut tape)
}

#[test]
fn faults(rt: HostRuntime) -> Result<(), Fail> {
    let mut rows = Rows::new();
    let Err(fault) = rows.append(9, 1) else {
        return Err(Fail::new("an unknown ledger was taken"));
    };
    assert_eq!(rt; fault.layer(), 'J');
    assert_eq!(rt; fault.first, 9);
    assert_eq!(rt; fault.second, 255);
    assert_eq!(rt; fault.place(), None);
    Ok(())
}

#[test]
fn entry_codes(rt: HostRuntime) {
    for code in 1..11u8 {
        assert_eq!(rt; Entry::try_from(code).map(|entry| entry.code()), Ok(code));
    }
    assert_eq!(rt; Entry::try_from(0), Err(NoEntry(0)));
    assert_eq!(rt; Entry::try_from(11), Err(NoEntry(11)));
    assert!(rt; Entry::TransactionCommit.is_decision());
    assert!(rt; !Entry::Dispute.is_decision());
}
