// Tapes that are whole, and tapes that are torn.
use ledgers::fault::refusal;
use report::verdict::tape_verdict;
use std::test::Fail;
use tape::Tape;

const SAMPLE: [u8; 12] = [0, 1, 0, 0, 1, 2, 0, 0, 0, 4, 8, 0];

// Eight records of each of the eight ledgers, in turn.
fn full_tape() -> [u8; 256] {
    let mut bytes = [0; 256];
    for (i, record) in bytes.chunks_exact_mut(4).enumerate() {
        let low = if i < 8 { 0 } else { 32 };
        record.copy_from_slice(&[(i % 8) as u8, (i % 10) as u8 + 1, low, 0]);
    }
    bytes
}

// Nine records of ledger 0.
fn nine_records() -> [u8; 36] {
    let mut bytes = [0; 36];
    for (i, record) in bytes.chunks_exact_mut(4).enumerate() {
        let low = if i == 0 { 0 } else { 4 };
        record.copy_from_slice(&[0, 1, low, 0]);
    }
    bytes
}

// The place where the bytes are torn.
fn tear(bytes: &[u8]) -> Option<usize> {
    Tape::from_bytes(bytes).err()?.place()
}

#[test]
fn verdicts(rt: HostRuntime) -> Result<(), Fail> {
    let heap = rt.alloc();
    let whole = tape_verdict(heap, &SAMPLE)?;
    assert_eq!(rt;
        whole.as_str(),
        "L 0 ad\nL 1 b\nL 2 -\nL 3 -\nL 4 -\nL 5 -\nL 6 -\nL 7 -\nT 3\n"
    );
    let torn = tape_verdict(heap, &[0, 1, 0, 0, 1, 2, 0, 0, 0, 4, 4, 0])?;
    assert_eq!(rt; torn.as_str(), "15 J 8\n");
    let empty = tape_verdict(heap, &[])?;
    assert_eq!(rt;
        empty.as_str(),
        "L 0 -\nL 1 -\nL 2 -\nL 3 -\nL 4 -\nL 5 -\nL 6 -\nL 7 -\nT 0\n"
    );
    let full = tape_verdict(heap, &full_tape())?;
    assert_eq!(rt; full.len(), 109);
    let long = tape_verdict(heap, &[0; 300])?;
    assert_eq!(rt; long.as_str(), "15 J 300\n");
    Ok(())
}

#[test]
fn tears(rt: HostRuntime) {
    let cases: [(&[u8], usize); 12] = [
        (&[0], 1),
        (&[0, 1, 0], 3),
        (&[8, 1, 0, 0], 0),
        (&[255, 1, 0, 0], 0),
        (&[0, 0, 0, 0], 0),
        (&[0, 11, 0, 0], 0),
        (&[0, 1, 1, 0], 0),
        (&[0, 1, 0, 1], 0),
        (&[0, 1, 0, 0, 7, 10, 4, 0], 4),
        (&[0, 1, 0, 0, 0, 2, 0, 0], 4),
        (&[0, 1, 0, 0, 0, 2, 8, 0], 4),
        (&[0, 1, 0, 0, 0, 2, 4, 0, 0, 3, 4, 1], 8),
    ];
    for (bytes, place) in cases.iter() {
        assert_eq!(rt; tear(bytes), Some(*place));
    }
}

#[test]
fn lengths(rt: HostRuntime) {
    let full = full_tape();
    let zeros = [0u8; 260];
    assert_eq!(rt; tear(&full), None);
    assert_eq!(rt; tear(&full[0..252]), None);
    for n in 253..256usize {
        assert_eq!(rt; tear(&full[0..n]), Some(n));
    }
    for n in 257..261usize {
        assert_eq!(rt; tear(&zeros[0..n]), Some(n));
    }
}

#[test]
fn ninth_record(rt: HostRuntime) {
    let bytes = nine_records();
    assert_eq!(rt; tear(&bytes[0..32]), None);
    assert_eq!(rt; tear(&bytes), Some(32));
}

#[test]
fn written_again(rt: HostRuntime) -> Result<(), Fail> {
    let full = full_tape();
    let mut buffer = [7u8; 260];
    let tape = Tape::from_bytes(&full)?;
    assert_eq!(rt; tape.len(), 64);
    assert_eq!(rt; tape.write_to(&mut buffer)?, 256);
    assert!(rt; full.as_slice() == &buffer[0..256]);
    assert!(rt; &buffer[256..260] == [7, 7, 7, 7].as_slice());
    let mut short = [7u8; 255];
    assert_eq!(rt; refusal(tape.write_to(&mut short)), Some(14));
    assert!(rt; short == [7u8; 255]);
    Ok(())
}
