// Records of printed fields, in memory that is used again.
ghost use Rattle.std.specs.Prelude.{◌≡◌, OnOk, map};
ghost use Rattle.csv.specs.Records.{fields_of};
ghost use Rattle.tuple_schema.specs.Words.{Fits, IsSchema};
ghost use Rattle.table_dump.specs.Words.{printed};

use csv::ByteRecord;
use row_codec::print_field;
use tuple_schema::{Column, Fields, Memory};

/// Makes the record that of the columns' names.
pub(crate) fn name_columns(columns: &[Column], into: &mut ByteRecord) -> Result<(), Memory>
    ensures { OnOk result (fields_of into.new ≡ map (λ c. c.name) columns.now) }
{
    into.clear();
    for column in columns {
        into.push_field(column.name.as_str().as_bytes())?;
    }
    Ok(())
}

/// Makes the record that of the row's printed fields. Each is printed over the text of the one before.
pub(crate) fn print_row<F: Fields>(
    row: &F,
    columns: &[Column],
    field: &mut Vec<u8>,
    into: &mut ByteRecord,
) -> Result<(), Memory>
    requires schema { IsSchema columns.now }
    requires fits { Fits columns.now (F.tuple row.now) }
    ensures { OnOk result (fields_of into.new ≡ printed columns.now (F.tuple row.now)) }
{
    into.clear();
    for i in 0..columns.len() {
        field.clear();
        print_field(row.field(i), &columns[i], field)?;
        into.push_field(field)?;
    }
    Ok(())
}
