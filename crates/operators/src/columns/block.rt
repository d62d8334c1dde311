ghost use Rattle.std.specs.Prelude.{◌≡◌, ◌^◌, ◌<◌, ◌≤◌, ℕ, length, Decides, bit_and, slice_index};
ghost use Rattle.operators.specs.Columns.{Covered, Extent, Sifted, Taken, Turned, bit_at, block_rows};
ghost use Rattle.theory.specs.Rows.{common};
ghost use Rattle.theory.specs.Words.{max_signals};

use super::BLOCK_ROWS;
use crate::bits::Bits;
use theory::MAX_SIGNALS;

// The most rows of a block that are taken one by one.
const TAKEN_ROWS: usize = 4;

// A block of rows with its columns.
#[derive(Clone, Copy)]
pub(crate) struct Block<'a> {
    rows: &'a [u64],
    columns: &'a [u64; MAX_SIGNALS],
    width: usize,
    ghost some: { 0 < length rows.now },
    ghost few: { length rows.now ≤ block_rows },
    ghost narrow: { width ≤ max_signals },
    ghost turned: { Turned width rows.now columns.now },
}

impl<'a> Block<'a> {
    // A block of these rows with these columns.
    pub(crate) fn new(rows: &'a [u64], columns: &'a [u64; MAX_SIGNALS], width: usize) -> Self
        requires some { 0 < length rows.now }
        requires few { length rows.now ≤ block_rows }
        requires narrow { width ≤ max_signals }
        requires turned { Turned width rows.now columns.now }
        ensures rows { result.rows.now ≡ rows.now }
        ensures width { result.width ≡ width }
    {
        Block {
            rows,
            columns,
            width,
        }
    }

    // The signals of the word that all rows of the block which contain the wanted ones have.
    pub(crate) fn narrowed(&self, word: u64, wanted: u64) -> u64
        requires fits { word < 2 ^ self.now.width }
        requires below { wanted < 2 ^ self.now.width }
        ensures common { result ≡ bit_and word (common self.now.width self.now.rows.now wanted) }
    {
        let extent = self.extent(wanted);
        let (some, left) = self.take_rows(extent, word);
        self.sifted(left, wanted, some)
    }

    // The rows that contain the wanted signals.
    fn extent(&self, wanted: u64) -> u64
        requires below { wanted < 2 ^ self.now.width }
        ensures extent { Extent self.now.rows.now wanted result }
    {
        let mut extent = u64::MAX >> (BLOCK_ROWS - self.rows.len());
        for k in Bits(wanted) {
            extent &= self.columns[k];
            if extent == 0 {
                break;
            }
        }
        extent
    }

    // Takes the first rows of the extent, and gives the signals of the word that they all have, with the rows that are left.
    fn take_rows(&self, extent: u64, start: u64) -> (u64, u64)
        requires rows { (s : ℕ) → bit_at extent s ≡ 1 → s < length self.now.rows.now }
        ensures taken { Taken self.now.rows.now extent start result.1 result.0 }
    {
        let mut word = start;
        let mut left = Bits(extent);
        // By calls of next: after left.by_ref().take(TAKEN_ROWS) no proof can name what is left.
        for _ in 0..TAKEN_ROWS {
            let Some(s) = left.next() else {
                break;
            };
            word &= self.rows[s];
        }
        (word, left.0)
    }

    // The bits of a word whose columns have each row of the extent, as those of the wanted signals do.
    fn sifted(&self, extent: u64, wanted: u64, start: u64) -> u64
        requires below { start < 2 ^ self.now.width }
        requires covered { (k : ℕ) → bit_at wanted k ≡ 1 → Covered extent (slice_index self.now.columns.now k) }
        ensures sifted { Sifted (λ k. Covered extent (slice_index self.now.columns.now k)) start result }
    {
        if extent == 0 {
            return start;
        }
        let mut word = start;
        for k in Bits(start & !wanted) {
            if !covers(self.columns[k], extent) {
                word ^= 1 << k;
            }
        }
        word
    }
}

// Whether each row of the extent is in the column.
fn covers(column: u64, extent: u64) -> bool
    ensures told { Decides result (Covered extent column) }
{
    extent & column == extent
}
