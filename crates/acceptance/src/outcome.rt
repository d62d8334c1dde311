use fault::Fault;
use fault::refusal::Refusal;
use table::place::Place;
use table::read::{Reading, read};

// Reads a text into memory for the largest table, and tells the answer or the fault.
pub(crate) fn outcome_of(text: &[u8]) -> Result<Reading, Fault> {
    let mut words = [0; 512];
    let mut places = [Place::default(); 572];
    read(text, &mut words, &mut places).map_err(|refusal| refusal.fault())
}
