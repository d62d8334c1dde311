#![tactic(auto)]

// The program `signals`: a table text from standard input, and the page of its closed sets to standard output.
use anyhow::anyhow;
use job::closed::list_closed;
use sets::set::Set;
use std::io::{Read, Write, copy};
use table::limits::{MAX_NAMES, MAX_ROWS};
use table::place::Place;
use text::line::line_end;
use tray::MAX_ENTRIES;

// One byte more than a text may have, so that a longer input is refused, and an endless one ends.
const MAX_INPUT: usize = 65_001;

// The bytes of the output.
const MAX_OUTPUT: usize = 65_536;

fn main(rt: HostRuntime) -> anyhow::Result<()> {
    // An array, as the board has no heap: the input is refused for its bytes alone.
    let mut input = [0; MAX_INPUT];
    let taken = copy(
        &mut rt.stdin().take(MAX_INPUT as u64),
        &mut input.as_mut_slice(),
    )? as usize;
    let mut words = [0; MAX_ROWS];
    let mut places = [Place::default(); MAX_NAMES];
    let mut sets = [Set::default(); MAX_ENTRIES];
    let mut output = [0; MAX_OUTPUT];
    let text = &input[..taken.min(MAX_INPUT)];
    match list_closed(text, &mut words, &mut places, &mut sets, &mut output) {
        Ok(count) => {
            rt.stdout().write_all(&output[..count.min(MAX_OUTPUT)])?;
            Ok(())
        }
        Err(_) => {
            if let Ok(end) = line_end(&output, 1, 0) {
                rt.stdout().write_all(&output[..=end])?;
            }
            Err(anyhow!("the job is refused"))
        }
    }
}
