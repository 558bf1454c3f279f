// The groups of rows, numbered in the order in which they appear.
ghost use Rattle.std.specs.Prelude.{◌<◌, length, All, IfOk};
ghost use Rattle.kind_laws.specs.Words.{IsGrouping};

use crate::keys::Keys;
use row_batch::Batch;
use std::alloc::Global;
use tuple_schema::Memory;

/// The rows of a list by groups.
#[derive(Drop)]
pub(crate) struct Grouping {
    /// For each row the number of its group.
    pub(crate) group_of: Vec<usize>,
    /// For each group the number of its first row.
    pub(crate) firsts: Vec<usize>,
}

/// The groups of the rows by these columns, in the order in which they appear.
pub(crate) fn group(alloc: Global, rows: &Batch, by: &[usize]) -> Result<Grouping, Memory>
    requires { All (λ c. c < length rows.now.columns) by.now }
    ensures { IfOk result (λ g. IsGrouping by.now rows.now.rows g.group_of.items g.firsts.items) }
{
    let mut keys = Keys::new(alloc, rows.schema().columns(), by);
    let mut group_of = Vec::new(alloc);
    let mut firsts = Vec::new(alloc);
    for number in 0..rows.len() {
        let group = keys.number(&rows.row(number))?;
        // A group is new where it has the next number.
        if group == firsts.len() {
            firsts.push(number)?;
        }
        group_of.push(group)?;
    }
    Ok(Grouping { group_of, firsts })
}
