use output::faults::OutputFault;
use output::output::Output;
use std::process::Abort;
use table::place::Place;
use view::table_view::TableView;
use view::write::write_table;

const TEXT: &[u8] = b"ab,cd";

const FIRST: Place = Place {
    start: 0,
    length: 2,
};

const SECOND: Place = Place {
    start: 3,
    length: 2,
};

const ABSENT: Place = Place {
    start: 0,
    length: 0,
};

// Checks that parts show the empty table.
fn empty(rt: &impl Abort, words: &[u64], places: &[Place]) {
    let view = TableView::new(TEXT, words, places);
    assert_eq!(rt; view.rows(), 0);
    assert_eq!(rt; view.signals(), 0);
}

#[test]
fn names(rt: HostRuntime) {
    let view = TableView::new(TEXT, &[1], &[FIRST, SECOND]);
    assert_eq!(rt; view.rows(), 1);
    assert_eq!(rt; view.signals(), 1);
    assert_eq!(rt; view.row_name(0).bytes, b"ab".as_slice());
    assert_eq!(rt; view.signal_name(0).bytes, b"cd".as_slice());
    assert_eq!(rt; view.signal_name(0).place, SECOND);
    assert_eq!(rt; view.row_name(1).place, ABSENT);
    assert_eq!(rt; view.signal_name(1).bytes, b"".as_slice());
    assert_eq!(rt; view.signal_name(usize::MAX).place, ABSENT);
}

#[test]
fn unfit(rt: HostRuntime) {
    empty(&rt, &[2], &[FIRST, SECOND]);
    empty(&rt, &[0, 0, 0], &[FIRST, SECOND]);
    empty(
        &rt,
        &[0],
        &[
            FIRST,
            Place {
                start: 3,
                length: 3,
            },
        ],
    );
    empty(
        &rt,
        &[0],
        &[
            FIRST,
            Place {
                start: 1,
                length: 2,
            },
        ],
    );
    empty(
        &rt,
        &[0],
        &[
            FIRST,
            Place {
                start: 3,
                length: 0,
            },
        ],
    );
    empty(
        &rt,
        &[0],
        &[
            FIRST,
            Place {
                start: usize::MAX,
                length: 2,
            },
        ],
    );
    empty(
        &rt,
        &[0],
        &[
            FIRST,
            Place {
                start: 2,
                length: usize::MAX,
            },
        ],
    );
}

#[test]
fn written(rt: HostRuntime) {
    let view = TableView::new(TEXT, &[1], &[FIRST, SECOND]);
    let mut out = [7; 20];
    let mut lent = Output::new(&mut out, 0);
    assert_eq!(rt; write_table(&view, &mut lent), Ok(()));
    assert_eq!(rt; lent.at(), 16);
    assert_eq!(rt; &out[0..16], b"B\n\n1\n1\n\nab\ncd\nX\n".as_slice());
    assert_eq!(rt; &out[16..20], [7u8, 7, 7, 7].as_slice());
    let mut short = [7; 15];
    let answer = write_table(&view, &mut Output::new(&mut short, 0));
    assert_eq!(rt; answer, Err(OutputFault::Full));
    assert_eq!(rt; short, [7; 15]);
}
