// The rows of one block.
ghost use Rattle.std.specs.Prelude.{◌≡◌, ◌≤◌, ◌<◌, ◌+◌, ◌^◌, length};
ghost use Rattle.tuple_schema.specs.Words.{IfFault};
ghost use Rattle.table_read.specs.Words.{rows_at, Verifies, wrong_place, NoDisk, RowTells};

use commit_disk::TableFault;
use row_codec::skip_row;
use tuple_schema::{Schema, Stop};

// How many bytes the row at the front takes. The bytes begin at that place.
fn row_len(bytes: &[u8], place: u64, schema: &Schema) -> Result<usize, Stop<TableFault>>
    ensures { RowTells schema.now place bytes.now result }
{
    match skip_row(bytes, schema) {
        Ok(len) => Ok(len),
        Err(_) => Err(Stop::Fault(TableFault::NotATable { at: place })),
    }
}

// Whether the bytes from that place on are exactly so many rows.
pub fn verify_rows(
    bytes: &[u8],
    count: u32,
    place: u64,
    schema: &Schema,
) -> Result<(), Stop<TableFault>>
    requires { place + length bytes.now < 2 ^ 64 }
    ensures rows { Verifies result (wrong_place (rows_at schema.now count place bytes.now)) }
    ensures no_disk { IfFault result NoDisk }
{
    let mut rest = bytes;
    let mut at = place;
    for _ in 0..count {
        let len = row_len(rest, at, schema)?;
        rest = rest.split_at(len).1;
        at += len as u64;
    }
    if !rest.is_empty() {
        return Err(Stop::Fault(TableFault::NotATable { at }));
    }
    Ok(())
}
