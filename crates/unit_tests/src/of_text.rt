// Texts that are read, and texts that are turned away.
use layout::refusal::{Fault, Refusal};
use std::alloc::Global;
use std::process::Abort;
use std::test::Fail;
use text::layout_text::read_layout;
use text::plan::Pin;

/// That a text means these nodes.
fn means(rt: &impl Abort, heap: Global, text: &[u8], nodes: &[u64]) -> Result<(), Fail> {
    let read = read_layout(heap, text)?;
    assert!(rt; read.nodes.as_slice() == nodes);
    Ok(())
}

/// That a text can't be read from this line on.
fn fails(rt: &impl Abort, heap: Global, text: &[u8], line: usize) -> Result<(), Fail> {
    match read_layout(heap, text) {
        Ok(_) => {
            assert!(rt; false);
            Ok(())
        },
        Err(fault) => {
            assert_eq!(rt; fault, Fault::Refused(Refusal::Text(line)));
            Ok(())
        },
    }
}

#[test]
fn statements(rt: HostRuntime) -> Result<(), Fail> {
    let heap = rt.alloc();
    means(&rt, heap, b"", &[0, 0, 0, 0, 0, 0])?;
    means(&rt, heap, b"box 1 2 3 4 005 # one\r\n", &[1, 1, 2, 3, 4, 5])?;
    means(
        &rt,
        heap,
        b"cell a{box 1 0 0 2 1}put a at 7 8 turned 4\tmirrored 5",
        &[
            1, 1, 0, 0, 2, 1, 4, 4, 0, 0, 0, 0, 5, 5, 1, 0, 0, 0, 3, 7, 8, 2, 0, 0,
        ],
    )?;
    means(
        &rt,
        heap,
        b"cell a { } row 3 9 a column 4 8 a put a at 0 1",
        &[
            0, 0, 0, 0, 0, 0, 6, 3, 9, 0, 0, 0, 7, 4, 8, 0, 0, 0, 3, 0, 1, 0, 0, 0, 2, 1, 2, 0, 0,
            0, 2, 4, 3, 0, 0, 0,
        ],
    )?;
    means(
        &rt,
        heap,
        b"box 1 0 0 1 1\ncell late { }",
        &[1, 1, 0, 0, 1, 1, 0, 0, 0, 0, 0, 0, 3, 0, 0, 0, 0, 0],
    )
}

#[test]
fn words_that_cannot_stand(rt: HostRuntime) -> Result<(), Fail> {
    let heap = rt.alloc();
    fails(&rt, heap, b"box 1 2 3 4 5\nbos 1", 1)?;
    fails(&rt, heap, b"box 1 2\n3 x", 1)?;
    fails(&rt, heap, b"box 1\n2\n", 1)?;
    fails(&rt, heap, b"put a at 0 0\ncell a { }", 0)?;
    fails(&rt, heap, b"cell a { }\ncell a { }", 1)?;
    fails(&rt, heap, b"cell a {\nbox 1 0 0 1 1\n", 1)?;
    fails(&rt, heap, b"cell a {\ncell b { } }", 1)?;
    fails(&rt, heap, b"cell a {\npin b 1 0 0 }", 1)?;
    fails(&rt, heap, b"cell a { }\n\n}", 2)?;
    fails(&rt, heap, b"cell a { put\na at 0 0 }", 1)?;
    fails(&rt, heap, b"turned 4", 0)?;
    fails(&rt, heap, b"box 100000000000000000000000000000 0 0 0 0", 0)?;
    fails(&rt, heap, b"pin a 1 0 0\npin a 1 2 2", 1)
}

#[test]
fn lines_and_pins(rt: HostRuntime) -> Result<(), Fail> {
    let text =
        b"pin \xff 1 2 3\ncell a { box 1 0 0 1 1\nbox 2 0 0 1 1 }\nput a\nat 1 1 pin b 4 5 6 row 2 2 a";
    let read = read_layout(rt.alloc(), text)?;
    let lines = [Some(1), Some(2), Some(1), Some(3), Some(4), None];
    assert!(rt; read.lines.as_slice() == lines.as_slice());
    let pin = Pin {
        layer: 1,
        x: 2,
        y: 3,
    };
    assert_eq!(rt; read.pin(b"\xff"), Some(pin));
    assert_eq!(rt; read.pin(b"a"), None);
    Ok(())
}
