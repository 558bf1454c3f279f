// Dumping a table.
ghost use Rattle.std.specs.Prelude.{◌≡◌, ◌≤◌, ◌<◌, ◌+◌, ℕ, List, Ok, Err, All, length, IsTrue};
ghost use Rattle.outside.specs.Words.{OnlyReads};
ghost use Rattle.tuple_schema.specs.Words.{Fits, IfFault};
ghost use Rattle.tuple_schema.specs.declared.value.Value.{Value};
ghost use Rattle.commit_disk.specs.Words.{row_blocks, TellsOf};
ghost use Rattle.table_read.specs.Words.{table_rows, wrong_place};
ghost use Rattle.table_dump.specs.Words.{rows_text, names_text, dump_text, Leaves, IsCaused, IsOutputFault, Judges};

use crate::DumpFault;
use crate::fault::of_reading;
use crate::text::{Printer, append_rows, names_of};
use commit_disk::Journal;
use outside::{Disk, Sink, put_all};
use row_batch::Batch;
use std::alloc::Global;
use table_read::next_block;
use tuple_schema::{Schema, Stop};

/// Writes the table that the journal tells of to the output: the names of its columns, and then its rows, each as a
/// record of CSV. At most one block and its text are in memory.
///
/// A text is quoted where it has to be, Null has no text, and a record of one empty field is `""`. A record ends with
/// a line feed.
pub fn dump<K: Disk, S: Sink>(
    alloc: Global,
    disk: &mut K,
    journal: &Journal,
    schema: &Schema,
    out: &mut S,
) -> Result<(), Stop<DumpFault>>
    requires place { journal.now.gate < (K.state disk.old).size }

    // Of the table that the journal tells of, where its rows decode.
    ensures rows { IsTrue (K.state disk.old).honest → (text : List ℕ)
        → (table : TellsOf journal.now (K.state disk.old).file text) → (rows : List (List Value))
        → table_rows schema.now (16 + length text) (row_blocks table.blocks) ≡ Ok rows
        → Leaves (dump_text schema.now rows) (S.state out.old) (S.state out.new) result }
    // On any disk: a dump of some rows of the columns stands in the output, or a front of one.
    ensures any_disk { (rows : List (List Value)) × All (Fits schema.now) rows
        × Leaves (dump_text schema.now rows) (S.state out.old) (S.state out.new) result }

    // Ok comes only where the rows decode, and NotATable names the first wrong place.
    ensures judges { IsTrue (K.state disk.old).honest → (text : List ℕ)
        → (table : TellsOf journal.now (K.state disk.old).file text)
        → Judges result (wrong_place (table_rows schema.now (16 + length text) (row_blocks table.blocks))) }
    ensures causes { IfFault result
        (IsCaused (K.state disk.old) (K.state disk.new) (S.state out.old) (S.state out.new)) }
    ensures only_read { OnlyReads (K.state disk.old) (K.state disk.new) }
    ensures output { (S.state out.old).faults ≤ (S.state out.new).faults }
{
    put_names(alloc, schema, out)?;
    put_blocks(alloc, disk, journal, schema, out)
}

// Puts the text.
fn put<S: Sink>(out: &mut S, text: &[u8]) -> Result<(), Stop<DumpFault>>
    ensures text { Leaves text.now (S.state out.old) (S.state out.new) result }
    ensures cause { IfFault result (IsOutputFault (S.state out.old) (S.state out.new)) }
    ensures output { (S.state out.old).faults ≤ (S.state out.new).faults }
{
    match put_all(out, text) {
        Ok(()) => Ok(()),
        Err(_) => Err(Stop::Fault(DumpFault::Sink)),
    }
}

// Puts the record of the columns' names.
fn put_names<S: Sink>(alloc: Global, schema: &Schema, out: &mut S) -> Result<(), Stop<DumpFault>>
    ensures text { Leaves (names_text schema.now) (S.state out.old) (S.state out.new) result }
    ensures cause { IfFault result (IsOutputFault (S.state out.old) (S.state out.new)) }
    ensures output { (S.state out.old).faults ≤ (S.state out.new).faults }
{
    let text = names_of(alloc, schema.columns())?;
    put(out, &text)
}

// Puts the rows of a batch. Answers the buffer of their text, to be written over.
fn put_rows<S: Sink>(
    batch: &Batch,
    printer: &mut Printer,
    mut text: Vec<u8>,
    out: &mut S,
) -> Result<Vec<u8>, Stop<DumpFault>>
    ensures rows { Leaves (rows_text batch.now.columns batch.now.rows) (S.state out.old) (S.state out.new) result }
    ensures any { (rows : List (List Value)) × All (Fits batch.now.columns) rows
        × Leaves (rows_text batch.now.columns rows) (S.state out.old) (S.state out.new) result }
    ensures cause { IfFault result (IsOutputFault (S.state out.old) (S.state out.new)) }
    ensures output { (S.state out.old).faults ≤ (S.state out.new).faults }
{
    text.clear();
    let text = append_rows(batch, printer, text)?;
    put(out, &text)?;
    Ok(text)
}

// Puts the rows of the table, block by block.
fn put_blocks<K: Disk, S: Sink>(
    alloc: Global,
    disk: &mut K,
    journal: &Journal,
    schema: &Schema,
    out: &mut S,
) -> Result<(), Stop<DumpFault>>
    requires place { journal.now.gate < (K.state disk.old).size }
    ensures rows { IsTrue (K.state disk.old).honest → (text : List ℕ)
        → (table : TellsOf journal.now (K.state disk.old).file text) → (rows : List (List Value))
        → table_rows schema.now (16 + length text) (row_blocks table.blocks) ≡ Ok rows
        → Leaves (rows_text schema.now rows) (S.state out.old) (S.state out.new) result }
    ensures judges { IsTrue (K.state disk.old).honest → (text : List ℕ)
        → (table : TellsOf journal.now (K.state disk.old).file text)
        → Judges result (wrong_place (table_rows schema.now (16 + length text) (row_blocks table.blocks))) }
    ensures any_disk { (rows : List (List Value)) × All (Fits schema.now) rows
        × Leaves (rows_text schema.now rows) (S.state out.old) (S.state out.new) result }
    ensures causes { IfFault result
        (IsCaused (K.state disk.old) (K.state disk.new) (S.state out.old) (S.state out.new)) }
    ensures only_read { OnlyReads (K.state disk.old) (K.state disk.new) }
    ensures output { (S.state out.old).faults ≤ (S.state out.new).faults }
{
    let mut batch = Batch::new(alloc, schema)?;
    let mut printer = Printer::new(alloc);
    let mut text = Vec::new(alloc);
    let mut at = journal.first();
    loop {
        batch.clear();
        match next_block(alloc, disk, journal, at, &mut batch) {
            Ok(Some(next)) => {
                text = put_rows(&batch, &mut printer, text, out)?;
                at = next;
            }
            Ok(None) => return Ok(()),
            Err(stop) => return Err(of_reading(stop)),
        }
    }
}
