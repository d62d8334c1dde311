use job::closed::list_closed;
use job::faults::JobFault;
use output::faults::OutputFault;
use page::faults::PageFault;
use sets::set::Set;
use std::test::Fail;
use table::faults::TableFault;
use table::place::Place;
use tray::faults::TrayFault;

const TEXT: &[u8] = b"B\n\n2\n2\n\na\nb\np\nq\n..\nXX\n";

const PAGE: &[u8] = b"closed,G,2\nset,0,0\nset,1,2,p,q\nend,2\n";

#[test]
fn listed(rt: HostRuntime) -> Result<(), Fail> {
    let kept = Set::new(1, 1)?;
    let mut sets = [kept; 3];
    let mut out = [7; 40];
    assert_eq!(rt;
        list_closed(
            TEXT,
            &mut [0; 2],
            &mut [Place::default(); 4],
            &mut sets,
            &mut out
        ),
        Ok(37)
    );
    assert_eq!(rt; &out[0..37], PAGE);
    assert_eq!(rt; &out[37..40], [0u8; 3].as_slice());
    assert_eq!(rt; sets, [Set::new(2, 0)?, Set::new(2, 3)?, kept]);
    Ok(())
}

#[test]
fn too_few_places(rt: HostRuntime) -> Result<(), Fail> {
    let mut sets = [Set::new(1, 1)?; 1];
    let mut out = [7; 40];
    let answer = list_closed(
        TEXT,
        &mut [0; 2],
        &mut [Place::default(); 4],
        &mut sets,
        &mut out,
    );
    assert_eq!(rt; answer, Err(JobFault::Tray(TrayFault::Full)));
    assert_eq!(rt; &out[0..15], b"fault,C,21,0,0\n".as_slice());
    assert_eq!(rt; &out[15..40], [0u8; 25].as_slice());
    assert_eq!(rt; sets, [Set::new(2, 0)?]);
    Ok(())
}

#[test]
fn too_few_bytes(rt: HostRuntime) -> Result<(), Fail> {
    let mut sets = [Set::new(1, 1)?; 2];
    let mut exact = [7; 40];
    assert_eq!(rt;
        list_closed(
            TEXT,
            &mut [0; 2],
            &mut [Place::default(); 4],
            &mut sets,
            &mut exact
        ),
        Ok(37)
    );
    let mut short = [7; 39];
    let answer = list_closed(
        TEXT,
        &mut [0; 2],
        &mut [Place::default(); 4],
        &mut sets,
        &mut short,
    );
    assert_eq!(rt;
        answer,
        Err(JobFault::Page(PageFault::Output(OutputFault::Full)))
    );
    assert_eq!(rt; &short[0..15], b"fault,P,51,0,0\n".as_slice());
    assert_eq!(rt; &short[15..39], [0u8; 24].as_slice());
    Ok(())
}

#[test]
fn refused_text(rt: HostRuntime) -> Result<(), Fail> {
    let kept = Set::new(1, 1)?;
    let mut sets = [kept; 2];
    let mut out = [7; 32];
    let answer = list_closed(
        b"B\n\n2\n2\n\na\nb\np\nq\n.\nXX\n",
        &mut [0; 2],
        &mut [Place::default(); 4],
        &mut sets,
        &mut out,
    );
    assert_eq!(rt;
        answer,
        Err(JobFault::Table(TableFault::CellCount { line: 10 }))
    );
    assert_eq!(rt; &out[0..16], b"fault,T,39,10,1\n".as_slice());
    assert_eq!(rt; sets, [kept, kept]);
    Ok(())
}
