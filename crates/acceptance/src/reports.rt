use fault::Fault;
use fault::refusal::Refusal;
use job::faults::JobFault;
use job::report::report;
use output::faults::OutputFault;
use table::faults::TableFault;
use table::place::Place;

const TEXT: &[u8] = b"B\n\n1\n1\n\nab\ncd\nX\nbytes behind";

const REPORT: &[u8] = b"read,1,1,16\nB\n\n1\n1\n\nab\ncd\nX\n";

const KEPT: Place = Place {
    start: 5,
    length: 5,
};

#[test]
fn granted(rt: HostRuntime) {
    let mut words = [9; 2];
    let mut places = [KEPT; 3];
    let mut out = [7; 40];
    assert_eq!(rt; report(TEXT, &mut words, &mut places, &mut out), Ok(28));
    assert_eq!(rt; &out[0..28], REPORT);
    assert_eq!(rt; &out[28..40], [0u8; 12].as_slice());
    assert_eq!(rt; words, [1, 9]);
    assert_eq!(rt;
        places,
        [
            Place {
                start: 8,
                length: 2,
            },
            Place {
                start: 11,
                length: 2,
            },
            KEPT,
        ]
    );
}

#[test]
fn refused(rt: HostRuntime) {
    let mut words = [9; 2];
    let mut places = [KEPT; 3];
    let mut out = [7; 32];
    let answer = report(
        b"B\n\n1\n1\n\nab\ncd\nx\n",
        &mut words,
        &mut places,
        &mut out,
    );
    assert_eq!(rt;
        answer,
        Err(JobFault::Table(TableFault::NotCell { line: 8, byte: 1 }))
    );
    assert_eq!(rt; &out[0..15], b"fault,T,40,8,1\n".as_slice());
    assert_eq!(rt; &out[15..32], [0u8; 17].as_slice());
    assert_eq!(rt; words, [9, 9]);
    assert_eq!(rt; places, [KEPT; 3]);
}

#[test]
fn small_output(rt: HostRuntime) {
    let mut words = [9; 2];
    let mut places = [KEPT; 3];
    let mut out = [7; 31];
    assert_eq!(rt;
        report(TEXT, &mut words, &mut places, &mut out),
        Err(JobFault::SmallOutput)
    );
    assert_eq!(rt; out, [0; 31]);
    assert_eq!(rt; words, [9, 9]);
    assert_eq!(rt; JobFault::SmallOutput.fault(), Fault::textless(b'J', 71));
}

#[test]
fn full_output(rt: HostRuntime) {
    let text = b"B\n\n1\n1\n\nabcdefgh\ncd\nX\n";
    let mut words = [9; 1];
    let mut places = [KEPT; 2];
    let mut exact = [7; 34];
    assert_eq!(rt; report(text, &mut words, &mut places, &mut exact), Ok(34));
    let mut short = [7; 33];
    let answer = report(text, &mut words, &mut places, &mut short);
    assert_eq!(rt; answer, Err(JobFault::Output(OutputFault::Full)));
    assert_eq!(rt; &short[0..15], b"fault,P,51,0,0\n".as_slice());
    assert_eq!(rt; &short[15..33], [0u8; 18].as_slice());
    assert_eq!(rt; words, [1]);
}
