use crate::known::Known;
use crate::query::ask;
use crate::reply::Reply;
use fault::Fault;
use fault::refusal::Refusal;
use std::process::Abort;
use table::place::Place;
use view::table_view::TableView;

// The line of the queries.
const LINE: usize = 7;

// The places of the names p and q.
const P: Place = Place {
    start: 0,
    length: 1,
};

const Q: Place = Place {
    start: 1,
    length: 1,
};

// The names of two rows and of the signals p, q and p again.
const PLACES: [Place; 5] = [P, Q, P, Q, P];

// The first row contains the first p and q, the second only the last p.
const WORDS: [u64; 2] = [0b110, 0b001];

// Puts a query to the table.
fn told(known: &mut Known, query: &[u8]) -> Result<Reply, Fault> {
    let view = TableView::new(b"pq", &WORDS, &PLACES);
    ask(&view, known, LINE, query).map_err(|refusal| refusal.fault())
}

// Puts a query that is refused, and looks at the refusal and the known set.
fn refused(rt: &impl Abort, query: &[u8], letter: u8, number: u8, byte: usize) {
    let mut known = Known::new();
    assert_eq!(rt; told(&mut known, b"given,q\n"), Ok(Reply::Done));
    let fault = Fault::in_text(letter, number, LINE, byte);
    assert_eq!(rt; told(&mut known, query), Err(fault));
    assert_eq!(rt; known.word(), 0b010);
}

#[test]
fn refuses(rt: HostRuntime) {
    refused(&rt, b"given,q", b'F', 32, 1);
    refused(&rt, b"\n", b'A', 62, 1);
    refused(&rt, b"foo,07\n", b'A', 62, 1);
    refused(&rt, b"follows\n", b'F', 33, 8);
    refused(&rt, b"follows,\n", b'F', 33, 9);
    refused(&rt, b"follows,07\n", b'F', 33, 9);
    refused(&rt, b"follows,10000\n", b'F', 33, 9);
    refused(&rt, b"follows,0,\n", b'A', 63, 11);
    refused(&rt, b"given,\n", b'A', 63, 7);
    refused(&rt, b"given,p,zz\n", b'A', 63, 9);
    refused(&rt, b"follows,2,p\n", b'A', 64, 12);
    refused(&rt, b"follows,2,p,zz\n", b'A', 63, 13);
}

#[test]
fn replies(rt: HostRuntime) {
    let mut known = Known::new();
    assert_eq!(rt; told(&mut known, b"given\n"), Ok(Reply::Done));
    assert_eq!(rt; told(&mut known, b"follows,0\n"), Ok(Reply::Yes));
    assert_eq!(rt; told(&mut known, b"follows,1,p,q\n"), Ok(Reply::Yes));
    assert_eq!(rt; told(&mut known, b"follows,0,q\nfoo"), Ok(Reply::No));
    assert_eq!(rt; known, Known::new());
    assert_eq!(rt; told(&mut known, b"given,p,p\n"), Ok(Reply::Done));
    assert_eq!(rt; known.word(), 0b100);
    assert_eq!(rt; told(&mut known, b"follows,0,q\n"), Ok(Reply::Yes));
    let no: &[u8] = b"no";
    assert!(rt; Reply::No.text() == no);
}
