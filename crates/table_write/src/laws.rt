// What holds of rows that are written in blocks.
ghost use Rattle.std.specs.Prelude.{◌≡◌, ◌≤◌, ◌+◌, ◌++◌, [], ℕ, List, length, take, All, Bool, Ok};
ghost use Rattle.tuple_schema.specs.declared.value.Value.{Value};
ghost use Rattle.tuple_schema.specs.declared.schema.Column.{Column};
ghost use Rattle.row_codec.specs.Words.{IsRowOf};
ghost use Rattle.commit_disk.specs.Words.{Stored, Holds, HasStill};
ghost use Rattle.table_read.specs.Words.{table_rows};
ghost use Rattle.table_write.specs.Words.{IsCut, cut, together, HoldsRows, HoldsFirst, HoldsEnded, with_blocks};
ghost use Rattle.table_write.specs.Words.{StopsBetween};

use commit_disk::{holds_once, verdicts_agree};
use outside::Disk;
use table_read::rows_laws;

/// Of any rows there is exactly one cut. It does nothing: its contract is the laws.
pub fn cut_laws()
    ensures is_cut { (batch : ℕ) (rows : List (List Value)) → 1 ≤ batch → IsCut batch rows (cut batch rows) }
    ensures only { (batch : ℕ) (rows : List (List Value)) (blocks : List (List (List Value))) → 1 ≤ batch
        → IsCut batch rows blocks → blocks ≡ cut batch rows }
{}

/// Where the old blocks have rows, a table with these new ones behind them holds the rows of both.
/// It does nothing: its contract is the law.
pub fn blocks_laws()
    ensures { (image text : List ℕ) (columns : List Column) (olds : List Stored) (blocks : List (List (List Value)))
        (rows : List (List Value)) (ended : Bool) →
        table_rows columns (16 + length text) olds ≡ Ok rows → Holds image text (with_blocks olds blocks) ended
        → All (IsRowOf columns) (together blocks) →
        HoldsRows image text columns (rows ++ together blocks) ended }
{
    rows_laws();
}

/// An image that has still what an old one has holds its first rows, where it holds rows at all, and
/// is ended where the old one is. It does nothing: its contract is the laws.
pub fn still_laws()
    ensures first_rows { (text : List ℕ) (old : List ℕ) (image : List ℕ) (columns : List Column)
        (rows : List (List Value)) →
        HasStill text old image → HoldsFirst text columns rows old → HoldsFirst text columns [] image
        → HoldsFirst text columns rows image }
    ensures ended { (text : List ℕ) (old : List ℕ) (image : List ℕ) (columns : List Column) →
        HasStill text old image → HoldsEnded text columns old → HoldsEnded text columns image }
{
    holds_once();
    verdicts_agree();
}

/// Where an append to this disk stopped, no image that a crash may leave is ahead of another by more than one block:
/// each block has a gate of its own. It does nothing: its contract is the law.
pub fn stopped_laws<K: Disk>(disk: &K)
    ensures { (text : List ℕ) (olds : List Stored) (blocks : List (List (List Value)))
        → StopsBetween text olds blocks (K.state disk.now).may_leave
        → (some other : List ℕ) → (K.state disk.now).may_leave some → (K.state disk.now).may_leave other
        → (more fewer : ℕ) (ended stopped : Bool) → more ≤ length blocks → fewer ≤ length blocks
        → Holds some text (with_blocks olds (take more blocks)) ended
        → Holds other text (with_blocks olds (take fewer blocks)) stopped
        → more ≤ fewer + 1 }
{
    holds_once();
}
