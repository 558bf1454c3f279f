// The files of a depot as sources.
ghost use Rattle.std.specs.Prelude.{◌≡◌, ◌≢◌, ◌≤◌, ◌+◌, Some, Err, IfOk, length};
ghost use Rattle.outside.specs.Words.{Rose, Files, file_at, Consults, found_in, size_of};
ghost use Rattle.tuple_schema.specs.Words.{GivesView};
ghost use Rattle.tuple_schema.specs.declared.memory.Stop.TheVariants as stop;
ghost use Rattle.extractors.specs.declared.fault.CsvFault.TheVariants as fault;
ghost use Rattle.extractors.specs.Words.{bytes_of, source_content};

use crate::{CsvFault, CsvSource};
use outside::{Depot, WholeFile, read_whole};
use std::alloc::Global;
use tuple_schema::{Schema, Stop};

/// The longest source file, in bytes.
pub const MAX_FILE: u64 = 268_435_456;

impl CsvSource {
    /// Reads the depot's file once, checks it and keeps it.
    pub fn open<D: Depot>(
        alloc: Global,
        depot: &mut D,
        file: &str,
        schema: &Schema,
        any_header: bool,
    ) -> Result<CsvSource, Stop<CsvFault>>
        ensures content { (files : Files) → (D.state depot.old).files ≡ Some files
            → result ≢ Err (stop.Fault fault.Depot)
            → GivesView (λ s. s.rows) result
            (source_content any_header schema.now (found_in MAX_FILE (file_at files file.now))) }
        ensures cause { result ≡ Err (stop.Fault fault.Depot)
            → Rose (D.state depot.old).faults (D.state depot.new).faults }
        ensures columns { IfOk result (λ s. s.columns ≡ schema.now) }
        ensures consults { Consults (D.state depot.old) (D.state depot.new) }
        ensures served { (files : Files) → (D.state depot.old).files ≡ Some files
            → (D.state depot.new).served ≤ (D.state depot.old).served + size_of (file_at files file.now) }
    {
        let bytes = read_file(alloc, depot, file, MAX_FILE)?;
        CsvSource::of(alloc, bytes, schema, any_header)
    }
}

// Reads the depot's file once, of at most so many bytes.
pub(crate) fn read_file<D: Depot>(
    alloc: Global,
    depot: &mut D,
    file: &str,
    limit: u64,
) -> Result<Vec<u8>, Stop<CsvFault>>
    ensures bytes { (files : Files) → (D.state depot.old).files ≡ Some files
        → result ≢ Err (stop.Fault fault.Depot)
        → GivesView (λ bytes. bytes.items) result (bytes_of (found_in limit (file_at files file.now))) }
    ensures within { IfOk result (λ bytes. length bytes.items ≤ limit) }
    ensures cause { result ≡ Err (stop.Fault fault.Depot)
        → Rose (D.state depot.old).faults (D.state depot.new).faults }
    ensures consults { Consults (D.state depot.old) (D.state depot.new) }
    ensures served { (files : Files) → (D.state depot.old).files ≡ Some files
        → (D.state depot.new).served ≤ (D.state depot.old).served + size_of (file_at files file.now) }
{
    match read_whole(alloc, depot, file, limit) {
        Ok(WholeFile::Read(bytes)) => Ok(bytes),
        Ok(WholeFile::TooLarge { size }) => Err(Stop::Fault(CsvFault::TooLarge { size })),
        Ok(WholeFile::Missing) => Err(Stop::Fault(CsvFault::Missing)),
        Err(Stop::Memory) => Err(Stop::Memory),
        Err(Stop::Fault(_)) => Err(Stop::Fault(CsvFault::Depot)),
    }
}
