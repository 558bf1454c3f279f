// Opening a table, which reads it and changes nothing.
ghost use Rattle.std.specs.Prelude.{◌≡◌, ◌≤◌, ◌<◌, ℕ, IsTrue, Err, IfOk, OnOk};
ghost use Rattle.outside.specs.Words.{Rose, Elapses, Syncs, Spares};
ghost use Rattle.tuple_schema.specs.Words.{IfFault};
ghost use Rattle.tuple_schema.specs.declared.memory.Stop.TheVariants as stop;
ghost use Rattle.commit_disk.specs.declared.attaching.TableFault.TheVariants as fault;
ghost use Rattle.commit_disk.specs.Words.{IsWithin, IsSound};
ghost use Rattle.load_runner.specs.Words.{IsFound, wrong, other, Starts, count_of, is_ended};

use commit_disk::{Attached, TableFault, attach};
use outside::Disk;
use std::alloc::Global;
use table_read::verify;
use tuple_schema::{Schema, Stop};

/// Attaches the table of this flow text, and reads all its rows, each of which has to be one of the columns.
pub fn open_table<K: Disk>(
    alloc: Global,
    disk: &mut K,
    text: &[u8],
    schema: &Schema,
) -> Result<Attached, Stop<TableFault>>
    ensures found { IfOk result (λ found. IsTrue (K.state disk.old).honest
        → Starts found (K.state disk.new).file text.now schema.now) }
    ensures within { IfOk result (λ found. IsWithin found (K.state disk.new).size) }
    ensures sound { IfOk result IsSound }
    ensures settled { OnOk result (Syncs (K.state disk.old) (K.state disk.new)) }

    ensures not_a_table { (place : ℕ) → result ≡ Err (stop.Fault (fault.NotATable place))
        → IsTrue (K.state disk.old).honest
        → IsFound (K.state disk.old).file text.now schema.now (wrong place) }
    ensures differs { result ≡ Err (stop.Fault fault.WorkflowDiffers) → IsTrue (K.state disk.old).honest
        → IsFound (K.state disk.old).file text.now schema.now other }
    ensures cause { IfFault result (λ f. f ≡ fault.Disk → Rose (K.state disk.old).faults (K.state disk.new).faults) }

    ensures spares { Spares (K.state disk.old) (K.state disk.new) }
    ensures elapses { Elapses (K.state disk.old) (K.state disk.new) }
{
    match attach(alloc, disk, text)? {
        Attached::NotMade => Ok(Attached::NotMade),
        Attached::Made(journal) => {
            verify(alloc, disk, &journal, schema)?;
            Ok(Attached::Made(journal))
        }
    }
}

/// How many rows were found.
pub fn count_of(found: &Attached) -> u64
    ensures { result ≡ count_of found.now }
{
    match found {
        Attached::NotMade => 0,
        Attached::Made(journal) => journal.count(),
    }
}

/// Whether the table was ended.
pub fn is_ended(found: &Attached) -> bool
    ensures { result ≡ is_ended found.now }
{
    match found {
        Attached::NotMade => false,
        Attached::Made(journal) => journal.ended(),
    }
}
