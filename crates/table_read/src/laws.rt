// What holds of the rows of a table, whoever reads them.
ghost use Rattle.std.specs.Prelude.{◌≡◌, ℕ, List, Ok, All};
ghost use Rattle.tuple_schema.specs.declared.value.Value.{Value};
ghost use Rattle.tuple_schema.specs.declared.schema.Column.{Column};
ghost use Rattle.row_codec.specs.Words.{AreBytes};
ghost use Rattle.commit_disk.specs.Words.{Stored};
ghost use Rattle.table_read.specs.Words.{table_rows, StoreAll};

use row_codec::codec_laws;

/// The rows of a table decode exactly where its blocks are the stored form of lists of rows of the
/// schema. It does nothing: its contract is the laws.
pub fn rows_laws()
    // What is read from the blocks are the rows that they store.
    ensures reads_stored { (columns : List Column) (gate : ℕ) (blocks : List Stored) (rows : List (List Value)) →
        All (λ block. AreBytes block.bytes) blocks → table_rows columns gate blocks ≡ Ok rows
        → StoreAll columns blocks rows }

    // The rows that the blocks store are read from them, wherever they stand.
    ensures stored_is_read { (columns : List Column) (gate : ℕ) (blocks : List Stored) (rows : List (List Value)) →
        StoreAll columns blocks rows → table_rows columns gate blocks ≡ Ok rows }
{
    codec_laws();
}
