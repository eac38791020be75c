// The edges of the format.
use crate::plays::rehearsed;
use script::start::read_script;
use std::alloc::Global;
use std::process::Abort;
use std::test::Fail;

// A second line, and what it prints after an opening of two ledgers.
#[derive(Clone, Copy)]
struct Edge {
    line: &'static str,
    printed: &'static str,
}

const EDGES: [Edge; 12] = [
    Edge {
        line: "S 0",
        printed: "2 16 S\n",
    },
    Edge {
        line: "S  0\n",
        printed: "2 16 S\n",
    },
    Edge {
        line: "S 0 \n",
        printed: "2 16 S\n",
    },
    Edge {
        line: "S 10\n",
        printed: "2 16 S\n",
    },
    Edge {
        line: "s 0\n",
        printed: "2 16 S\n",
    },
    Edge {
        line: "\n",
        printed: "2 16 S\n",
    },
    Edge {
        line: "D 0\n",
        printed: "2 16 S\n",
    },
    Edge {
        line: "B 0\n",
        printed: "2 16 S\n",
    },
    Edge {
        line: "F 2 YY\n",
        printed: "2 16 S\n",
    },
    Edge {
        line: "S 0\r\n",
        printed: "2 16 S\n",
    },
    Edge {
        line: "S 9\nX 9\n",
        printed: "2 2 F\n3 2 F\n",
    },
    Edge {
        line: "D 0 1\nD 1 1\nE 0 1\nS 0\n",
        printed: "2 7 N\n3 2 F\n4 9 F\n5 6 F\n",
    },
];

fn check_edge(rt: &impl Abort, heap: Global, edge: &Edge) -> Result<(), Fail> {
    let script = format!(in heap; "F 2 YY\n{}", edge.line)?;
    let text = format!(in heap; "{}L 0 R -\nL 1 R -\nM 0\n", edge.printed)?;
    assert_eq!(rt; rehearsed(heap, script.as_str())?, text);
    Ok(())
}

#[test]
fn a_line_is_read_exactly(rt: HostRuntime) -> Result<(), Fail> {
    for edge in &EDGES {
        check_edge(&rt, rt.alloc(), edge)?;
    }
    Ok(())
}

#[test]
fn a_first_line_is_read_exactly(rt: HostRuntime) -> Result<(), Fail> {
    let bad = [
        "",
        "\n",
        "F 2 YY",
        "F 2 YYY\n",
        "F 2 Y\n",
        "F 0 \n",
        "F 2  YY\n",
        "F 2 YY \n",
        "f 2 YY\n",
        "F 2 yy\n",
        "B\n",
    ];
    for script in &bad {
        let text = rehearsed(rt.alloc(), script)?;
        assert_eq!(rt; text.as_str(), "1 16 S\n");
    }
    Ok(())
}

// A script of this many bytes: an opening, and then empty lines.
fn padded(heap: Global, bytes: usize) -> Result<String, Fail> {
    let mut script = String::from_str(heap, "F 2 YY\n")?;
    for _ in 7..bytes {
        script.push('\n')?;
    }
    Ok(script)
}

#[test]
fn an_overlong_script_is_a_bad_line_0(rt: HostRuntime) -> Result<(), Fail> {
    let longest = padded(rt.alloc(), 65_536)?;
    let text = rehearsed(rt.alloc(), longest.as_str())?;
    assert_eq!(rt; text.as_str(), "2 16 S\nL 0 R -\nL 1 R -\nM 0\n");
    let overlong = padded(rt.alloc(), 65_537)?;
    let text = rehearsed(rt.alloc(), overlong.as_str())?;
    assert_eq!(rt; text.as_str(), "0 16 S\n");
    Ok(())
}

#[test]
fn a_script_is_read_one_byte_past_its_limit(rt: HostRuntime) -> Result<(), Fail> {
    let short = read_script(rt.alloc(), b"F 2 YY\n".as_slice())?;
    assert!(rt; short.as_slice() == b"F 2 YY\n".as_slice());
    let overlong = padded(rt.alloc(), 65_540)?;
    let read = read_script(rt.alloc(), overlong.as_str().as_bytes())?;
    assert_eq!(rt; read.len(), 65_537);
    Ok(())
}
