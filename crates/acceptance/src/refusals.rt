use crate::outcome::outcome_of;
use fault::Fault;
use fault::refusal::Refusal;
use std::process::Abort;
use table::faults::TableFault;
use table::place::Place;
use table::read::{Reading, read};

// Checks that a text is refused, and with which letter, number, line and byte.
fn refused(rt: &impl Abort, text: &[u8], letter: u8, number: u8, line: usize, byte: usize) {
    assert_eq!(rt;
        outcome_of(text),
        Err(Fault::in_text(letter, number, line, byte))
    );
}

#[test]
fn fields(rt: HostRuntime) {
    refused(&rt, b"", b'F', 32, 1, 1);
    refused(&rt, b"B", b'F', 32, 1, 1);
    refused(&rt, b"B\n\n2", b'F', 32, 3, 1);
    refused(&rt, b"B\n\n\n", b'F', 33, 3, 1);
    refused(&rt, b"B\n\n07\n", b'F', 33, 3, 1);
    refused(&rt, b"B\n\n0a\n", b'F', 33, 3, 1);
    refused(&rt, b"B\n\n1a\n", b'F', 33, 3, 2);
    refused(&rt, b"B\n\n12345\n", b'F', 33, 3, 5);
    refused(&rt, b"B\n\n2\n1x\n", b'F', 33, 4, 2);
}

#[test]
fn heads(rt: HostRuntime) {
    refused(&rt, b"b\n", b'T', 34, 1, 1);
    refused(&rt, b"BB\n", b'T', 34, 1, 1);
    refused(&rt, b"\n", b'T', 34, 1, 1);
    refused(&rt, b"B\n \n", b'T', 35, 2, 1);
    refused(&rt, b"B\n\n513\n", b'T', 36, 3, 1);
    refused(&rt, b"B\n\n512\n61\n", b'T', 36, 4, 1);
    refused(&rt, b"B\n\n1\n1\nx\n", b'T', 35, 5, 1);
}

#[test]
fn bodies(rt: HostRuntime) {
    refused(&rt, b"B\n\n1\n1\n\n\n", b'T', 38, 6, 1);
    refused(&rt, b"B\n\n1\n1\n\na,b\n", b'T', 38, 6, 2);
    refused(&rt, b"B\n\n1\n1\n\na\nb\tc\n", b'T', 38, 7, 2);
    refused(&rt, b"B\n\n1\n1\n\na\nb\x7f\n", b'T', 38, 7, 2);
    refused(&rt, b"B\n\n1\n1\n\na\nb\n..\n", b'T', 39, 8, 1);
    refused(&rt, b"B\n\n1\n2\n\na\nb\nc\nX\n", b'T', 39, 9, 1);
    refused(&rt, b"B\n\n1\n2\n\na\nb\nc\nXx\n", b'T', 40, 9, 2);
    refused(&rt, b"B\n\n2\n2\n\na\nb\np\nq\n..\n?X\n", b'T', 40, 11, 1);
}

#[test]
fn rooms(rt: HostRuntime) {
    let kept = Place {
        start: 7,
        length: 9,
    };
    let mut words = [5; 2];
    let mut places = [kept; 3];
    assert_eq!(rt;
        read(b"B\n\n3\n0\nx", &mut words, &mut places),
        Err(TableFault::NoRoom)
    );
    assert_eq!(rt;
        read(b"B\n\n2\n2\nx", &mut words, &mut places),
        Err(TableFault::NoRoom)
    );
    assert_eq!(rt; TableFault::NoRoom.fault(), Fault::in_text(b'T', 37, 4, 1));
    assert_eq!(rt;
        read(b"B\n\n2\n1\n\na\nb\np\nX\n,\n", &mut words, &mut places),
        Err(TableFault::NotCell { line: 10, byte: 1 })
    );
    assert_eq!(rt; words, [5, 5]);
    assert_eq!(rt; places, [kept, kept, kept]);
    let answer = read(b"B\n\n1\n1\n\na\np\nX\n", &mut words, &mut places);
    assert_eq!(rt;
        answer,
        Ok(Reading {
            rows: 1,
            signals: 1,
            bytes: 14,
        })
    );
    assert_eq!(rt; words, [1, 5]);
    assert_eq!(rt;
        places,
        [
            Place {
                start: 8,
                length: 1,
            },
            Place {
                start: 10,
                length: 1,
            },
            kept,
        ]
    );
}
