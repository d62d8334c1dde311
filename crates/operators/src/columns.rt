ghost use Rattle.std.specs.Prelude.{◌≡◌, ◌^◌, ◌<◌, ◌≤◌, length};
ghost use Rattle.operators.specs.Columns.{Column, Turned, TurnedBlocks, block_rows, max_rows};
ghost use Rattle.theory.specs.Rows.{common};
ghost use Rattle.theory.specs.Words.{max_signals};

use crate::columns::block::Block;
use crate::word::all_signals;
use table::limits::MAX_ROWS;
use theory::MAX_SIGNALS;

mod block;

// The rows of a block.
const BLOCK_ROWS: usize = 64;

// The blocks of the longest table.
const BLOCKS: usize = MAX_ROWS / BLOCK_ROWS;

// The rows of a table, kept by columns too, in blocks.
#[derive(Clone, Copy)]
pub(crate) struct Columns<'r> {
    rows: &'r [u64],
    width: usize,
    blocks: [[u64; MAX_SIGNALS]; BLOCKS],
    ghost few: { length rows.now ≤ max_rows },
    ghost narrow: { width ≤ max_signals },
    ghost turned: { TurnedBlocks width rows.now blocks },
}

impl<'r> Columns<'r> {
    // The rows of a width by columns.
    pub(crate) fn new(rows: &'r [u64], width: usize) -> Self
        requires few { length rows.now ≤ max_rows }
        requires narrow { width ≤ max_signals }
        ensures rows { result.rows.now ≡ rows.now }
        ensures width { result.width ≡ width }
    {
        let mut blocks = [[0; MAX_SIGNALS]; BLOCKS];
        // By index: of blocks that are lent to a zipped iterator nothing is known afterwards.
        for (b, rows) in rows.chunks(BLOCK_ROWS).enumerate() {
            blocks[b] = columns_of(rows, width);
        }
        Columns {
            rows,
            width,
            blocks,
        }
    }

    // The signals common to all rows that contain the wanted ones.
    pub(crate) fn common(&self, wanted: u64) -> u64
        requires below { wanted < 2 ^ self.now.width }
        ensures common { result ≡ common self.now.width self.now.rows.now wanted }
    {
        let blocks = &self.blocks;
        let mut word = all_signals(self.width);
        // By index: a zip asks at each block both for rows and for columns, and costs some 8 % more.
        for (b, rows) in self.rows.chunks(BLOCK_ROWS).enumerate() {
            word = Block::new(rows, &blocks[b], self.width).narrowed(word, wanted);
            if word == wanted {
                break;
            }
        }
        word
    }
}

// The columns of the rows of a block, one for each of so many bits.
fn columns_of(rows: &[u64], width: usize) -> [u64; MAX_SIGNALS]
    requires few { length rows.now ≤ block_rows }
    requires narrow { width ≤ max_signals }
    ensures turned { Turned width rows.now result }
{
    let mut columns = [0; MAX_SIGNALS];
    for (k, column) in columns[..width].iter_mut().enumerate() {
        *column = column_of(rows, k);
    }
    columns
}

// The column of a bit.
fn column_of(rows: &[u64], k: usize) -> u64
    requires few { length rows.now ≤ block_rows }
    requires bit { k < max_signals }
    ensures column { Column rows.now k result }
{
    rows.iter()
        .rev()
        .copied()
        .fold(0, |word, row| word << 1 | (row >> k) % 2)
}
