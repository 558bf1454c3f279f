// Filling a block with rows.
ghost use Rattle.std.specs.Prelude.{◌≡◌, ◌≤◌, ◌<◌, ◌+◌, ◌∷◌, List, length, take, drop, All};
ghost use Rattle.tuple_schema.specs.declared.value.Value.{Value};
ghost use Rattle.row_codec.specs.Words.{IsRowOf};
ghost use Rattle.table_write.specs.Words.{is_full, cut, stored_of};

use commit_disk::{Block, FULL_BYTES, MAX_ROWS};
use row_batch::Batch;

// Fills the block with the rows from that place on until it is full. Answers how many they are.
pub fn fill(block: &mut Block, rows: &Batch, from: usize, batch: u32) -> usize
    requires within { from < length rows.now.rows }
    requires some { 1 ≤ batch }
    requires few { batch ≤ MAX_ROWS }
    ensures some { 1 ≤ result }
    ensures within { from + result ≤ length rows.now.rows }
    ensures block { block.new ≡ stored_of (take result (drop from rows.now.rows)) }
    ensures of_columns { All (IsRowOf rows.now.columns) (take result (drop from rows.now.rows)) }
    ensures first { cut batch (drop from rows.now.rows)
        ≡ take result (drop from rows.now.rows) ∷ cut batch (drop (from + result) rows.now.rows) }
{
    block.clear();
    let len = rows.len();
    let mut count = 0;
    while from + count < len && !is_full(block, batch) {
        block.add(rows.row(from + count).bytes());
        count += 1;
    }
    count
}

// Whether a block takes no more rows.
fn is_full(block: &Block, batch: u32) -> bool
    ensures { (rows : List (List Value)) → block.now ≡ stored_of rows → result ≡ is_full batch rows }
{
    batch <= block.rows() || FULL_BYTES <= block.len()
}
