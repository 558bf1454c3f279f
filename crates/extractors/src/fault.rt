// What is wrong with a CSV file.
ghost use Rattle.std.specs.Prelude.{◌≡◌};
ghost use Rattle.extractors.specs.Words.{row_fault};

use row_codec::FieldFault;
use thiserror::Error;

/// Why a file has no content. Rows and columns count from 1, and the header is no row.
#[derive(Clone, Copy, Debug, PartialEq, Eq, Error)]
pub enum CsvFault {
    /// The depot failed.
    #[error("a source file failed")]
    Depot,
    #[error("file is missing")]
    Missing,
    /// The file has more than 268,435,456 bytes.
    #[error("file has {size} bytes")]
    TooLarge {
        size: u64,
    },
    /// The first column at which the header differs, or is too short or too long.
    #[error("header differs at column {at}")]
    BadHeader {
        at: u32,
    },
    /// A record with another number of fields than there are columns, whatever they hold.
    #[error("row {row} has another number of fields")]
    BadCsv {
        row: u64,
    },
    /// A field with no value, in a record with the right number of fields.
    #[error("row {row} column {column}: {cause}")]
    BadRow {
        row: u64,
        column: u32,
        cause: FieldFault,
    },
}

/// Why a record has no tuple.
#[derive(Clone, Copy, Debug, PartialEq, Eq)]
pub(crate) enum RecordFault {
    /// It has another number of fields than there are columns.
    Count,
    /// The first field that has no value.
    Field { column: u32, cause: FieldFault },
}

impl RecordFault {
    /// The fault of the record of that row.
    pub(crate) fn at(self, row: u64) -> CsvFault
        ensures { result ≡ row_fault row self }
    {
        match self {
            RecordFault::Count => CsvFault::BadCsv { row },
            RecordFault::Field { column, cause } => CsvFault::BadRow { row, column, cause },
        }
    }
}
