// Whole scripts, and what they print.
use crate::plays::{rehearsed, settled};
use std::test::Fail;

#[derive(Clone, Copy)]
struct Case {
    script: &'static str,
    text: &'static str,
}

#[test]
fn each_script_prints_its_text(rt: HostRuntime) -> Result<(), Fail> {
    let cases = [
        Case {
            script: "F 2 YY\nB\nX 0\nE 1 0\nS 1\nS 1\nR 0\nS 0\n",
            text: "2 0\n3 0\n4 0\n5 0\n6 0\n7 0\n8 3 F\nL 0 K ai\nL 1 R ei\nM 1\n",
        },
        Case {
            script: "F 2 YY\nB\nS 0\nD 0 1\nS 1\nD 1 0\nS 0\nS 0\nD 0 1\nS 1\nS 1\nD 1 0\n",
            text: "2 0\n3 0\n4 0\n5 0\n6 0\n7 0\n8 0\n9 0\n10 0\n11 0\n12 0\nL 0 R adh\nL 1 R bfh\nM 4\n",
        },
        Case {
            script: "F 2 YY\nB\nS 0\nD 0 1\nS 1\nD 1 0\nS 0\nS 0\nE 1 0\nS 1\nS 1\nD 0 1\nD 1 0\n",
            text: "2 0\n3 0\n4 0\n5 0\n6 0\n7 0\n8 0\n9 0\n10 0\n11 0\n12 0\n13 0\nL 0 R adhj\nL 1 R beij\nM 4\n",
        },
        Case {
            script: "F 2 YY\nB\nS 0\nD 0 1\nX 1\nR 1\n",
            text: "2 0\n3 0\n4 0\n5 0\n6 0\nL 0 R a\nL 1 U b\nM 1\n",
        },
        Case {
            script: "F 1 Y\nB\n",
            text: "1 1 F\n",
        },
        Case {
            script: "F 9 YYYYYYYYY\n",
            text: "1 1 F\n",
        },
    ];
    for case in &cases {
        let text = rehearsed(rt.alloc(), case.script)?;
        assert_eq!(rt; text.as_str(), case.text);
    }
    Ok(())
}

#[test]
fn a_person_is_told_of_what_no_machine_can_settle(rt: HostRuntime) -> Result<(), Fail> {
    let cases = [
        Case {
            script: "F 2 YY\nB\nS 0\nD 0 1\nX 1\nR 1\n",
            text: "W 1 1 uncertain after a restart: ask the other ledgers whether they posted or dropped, and settle this one alike\nN 1\n",
        },
        Case {
            script: "F 2 YY\nB\nX 0\nR 0\n",
            text: "N 0\n",
        },
        Case {
            script: "F 2 YN \n",
            text: "1 16 S\n",
        },
    ];
    for case in &cases {
        let text = settled(rt.alloc(), case.script)?;
        assert_eq!(rt; text.as_str(), case.text);
    }
    Ok(())
}
