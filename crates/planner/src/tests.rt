use crate::{contents, report};
use std::test::Fail;

// A file, and what is reported of it under the name `p`.
struct Case {
    file: &'static [u8],
    lines: &'static str,
}

const CASES: [Case; 5] = [
    Case {
        file: b"",
        lines: "p: refused by file, number 1, place 0: no byte, or a version other than 1\n",
    },
    Case {
        file: b"\x01\x00\x05\x01\x00\x00\x00\x64\x00\x03\x04\x00\x50",
        lines: "p: refused by file, number 3, place 8: unknown kind, wrong length or wrong order\n",
    },
    Case {
        file: b"\x01\x00\x05\x01\x00\x00\x00\x64",
        lines: "p: refused by file, number 6, place 8: no master\n",
    },
    Case {
        file: b"\x01\x00\x05\x01\x00\x00\x00\x00\x00\x03\x02\x00\x01",
        lines: "p: 1 master, walk 1, target 0 (not set)\nmaster 1: hop 1\n",
    },
    Case {
        file: b"\x01\x00\x05\x01\x00\x00\x00\x64\x00\x03\x02\x00\x0a\x00\x03\x02\x00\x0b\x00\x03\x04\x00\x50",
        lines: "p: 2 masters, walk 21, target 100\nmaster 1: hop 10\nmaster 2: hop 11\n  low 1: cycle 80\n",
    },
];

#[test]
fn each_file_has_its_lines(rt: HostRuntime) -> Result<(), Fail> {
    for case in &CASES {
        let told = report(rt.alloc(), "p", case.file)?;
        assert!(rt; told.as_str() == case.lines, "{}", case.lines);
    }
    Ok(())
}

#[test]
fn a_missing_file_is_empty(rt: HostRuntime) -> Result<(), Fail> {
    let file = contents(&rt, "no-such-folder/plan.bin")?;
    assert_eq!(rt; file.len(), 0);
    Ok(())
}
