// Rules that are read, and lines that are turned away.
use layout::refusal::{Fault, Refusal};
use rule_text::read_rules;
use std::alloc::Global;
use std::process::Abort;
use std::test::Fail;

/// That a text is one rule, with these numbers, this message and this line.
fn means(
    rt: &impl Abort,
    heap: Global,
    text: &[u8],
    kind: u64,
    regions: &[u64],
    number: u64,
    message: &[u8],
    line: usize,
) -> Result<(), Fail> {
    let rules = read_rules(heap, text)?;
    assert!(rt; rules.len() == 1);
    assert_eq!(rt; rules[0].kind.number(), kind);
    assert!(rt; rules[0].regions.as_slice() == regions);
    assert_eq!(rt; rules[0].number, number);
    assert!(rt; rules[0].message.as_slice() == message);
    assert_eq!(rt; rules[0].line, line);
    Ok(())
}

/// That a text can't be read from this line on.
fn fails(rt: &impl Abort, heap: Global, text: &[u8], line: usize) -> Result<(), Fail> {
    match read_rules(heap, text) {
        Ok(_) => {
            assert!(rt; false);
            Ok(())
        },
        Err(fault) => {
            assert_eq!(rt; fault, Fault::Refused(Refusal::Text(line)));
            Ok(())
        },
    }
}

#[test]
fn rules(rt: HostRuntime) -> Result<(), Fail> {
    let heap = rt.alloc();
    assert_eq!(rt; read_rules(heap, b" # none\n\n\t\r\n")?.len(), 0);
    means(
        &rt,
        heap,
        b"\nwide 7 3  a  wire (7) # thin\r\n",
        0,
        &[0, 7, 0],
        3,
        b"a  wire (7)",
        1,
    )?;
    means(
        &rt,
        heap,
        b"apart((1 and 2)or 3)04",
        1,
        &[0, 1, 0, 0, 2, 0, 1, 0, 1, 0, 3, 0, 2, 2, 3],
        4,
        b"",
        0,
    )?;
    means(
        &rt,
        heap,
        b"never (5 grown 6) x",
        3,
        &[0, 5, 0, 4, 6, 0],
        0,
        b"x",
        0,
    )?;
    means(
        &rt,
        heap,
        b"inside (1 grown 2) (3 without 4) 5 in",
        2,
        &[0, 3, 0, 0, 4, 0, 0, 1, 0, 4, 2, 2, 3, 0, 1],
        5,
        b"in",
        0,
    )
}

#[test]
fn lines_that_cannot_be_read(rt: HostRuntime) -> Result<(), Fail> {
    let heap = rt.alloc();
    fails(&rt, heap, b"wide 1 2 a\nthin 1 2 b\n", 1)?;
    fails(&rt, heap, b"wide 1\n2 a", 0)?;
    fails(&rt, heap, b"\nnever (1 and 2", 1)?;
    fails(&rt, heap, b"never (1)", 0)?;
    fails(&rt, heap, b"never )", 0)?;
    fails(&rt, heap, b"wide (1 grown (2)) 3", 0)?;
    fails(&rt, heap, b"inside 1 2 here", 0)?;
    fails(&rt, heap, b"wide 100000000000000000000 3", 0)
}
