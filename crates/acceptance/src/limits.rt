use crate::outcome::outcome_of;
use fault::Fault;
use std::alloc::{AllocError, Global};
use std::test::Fail;
use table::read::Reading;

// Puts a line of `count` equal bytes behind the text.
fn add_line(text: &mut Vec<u8>, count: usize, byte: u8) -> Result<(), AllocError> {
    for _ in 0..count {
        text.push(byte)?;
    }
    text.push(b'\n')?;
    Ok(())
}

// Makes the text of a table of equal rows, with names of equal length.
fn large(
    alloc: Global,
    head: &[u8],
    rows: usize,
    signals: usize,
    name: usize,
) -> Result<Vec<u8>, AllocError> {
    let mut text = Vec::from_slice(alloc, head)?;
    for _ in 0..rows {
        add_line(&mut text, name, b'r')?;
    }
    for _ in 0..signals {
        add_line(&mut text, name, b's')?;
    }
    for _ in 0..rows {
        add_line(&mut text, signals, b'X')?;
    }
    Ok(text)
}

#[test]
fn at_the_limits(rt: HostRuntime) -> Result<(), Fail> {
    let text = large(rt.alloc(), b"B\n\n512\n60\n\n", 512, 60, 40)?;
    assert_eq!(rt;
        outcome_of(&text),
        Ok(Reading {
            rows: 512,
            signals: 60,
            bytes: text.len(),
        })
    );
    let more_rows = large(rt.alloc(), b"B\n\n513\n60\n\n", 513, 60, 40)?;
    assert_eq!(rt; outcome_of(&more_rows), Err(Fault::in_text(b'T', 36, 3, 1)));
    let more_signals = large(rt.alloc(), b"B\n\n512\n61\n\n", 512, 61, 40)?;
    assert_eq!(rt;
        outcome_of(&more_signals),
        Err(Fault::in_text(b'T', 36, 4, 1))
    );
    let longer_names = large(rt.alloc(), b"B\n\n512\n60\n\n", 512, 60, 41)?;
    assert_eq!(rt;
        outcome_of(&longer_names),
        Err(Fault::in_text(b'T', 38, 6, 1))
    );
    Ok(())
}

#[test]
fn long_texts(rt: HostRuntime) -> Result<(), Fail> {
    let mut text = Vec::from_slice(rt.alloc(), b"B\n\n0\n0\n\n")?;
    for _ in 0..64_992 {
        text.push(b'z')?;
    }
    assert_eq!(rt;
        outcome_of(&text),
        Ok(Reading {
            rows: 0,
            signals: 0,
            bytes: 8,
        })
    );
    text.push(b'z')?;
    assert_eq!(rt; outcome_of(&text), Err(Fault::in_text(b'T', 31, 1, 1)));
    Ok(())
}

#[test]
fn small_tables(rt: HostRuntime) {
    assert_eq!(rt;
        outcome_of(b"B\n\n0\n0\n\n"),
        Ok(Reading {
            rows: 0,
            signals: 0,
            bytes: 8,
        })
    );
    assert_eq!(rt;
        outcome_of(b"B\n\n2\n0\n\na\nb\n\n\n"),
        Ok(Reading {
            rows: 2,
            signals: 0,
            bytes: 14,
        })
    );
    assert_eq!(rt;
        outcome_of(b"B\n\n2\n0\n\na\nb\n\n"),
        Err(Fault::in_text(b'F', 32, 9, 1))
    );
    assert_eq!(rt;
        outcome_of(b"B\n\n0\n2\n\np\nq\n"),
        Ok(Reading {
            rows: 0,
            signals: 2,
            bytes: 12,
        })
    );
    assert_eq!(rt;
        outcome_of(b"B\n\n1\n1\n\na\np\nX\nmore"),
        Ok(Reading {
            rows: 1,
            signals: 1,
            bytes: 14,
        })
    );
}

#[test]
fn cut_short(rt: HostRuntime) {
    let text = b"B\n\n2\n2\n\na\nb\np\nq\n..\nXX\n";
    let starts = [0, 2, 3, 5, 7, 8, 10, 12, 14, 16, 19];
    let mut line = 0;
    for end in 0..22 {
        if line < starts.len() && starts[line] <= end {
            line += 1;
        }
        assert_eq!(rt;
            outcome_of(&text[0..end]),
            Err(Fault::in_text(b'F', 32, line, 1))
        );
    }
    assert_eq!(rt;
        outcome_of(text),
        Ok(Reading {
            rows: 2,
            signals: 2,
            bytes: 22,
        })
    );
}
