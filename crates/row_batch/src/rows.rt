// Rows that come in batches.
ghost use Rattle.std.specs.Prelude.{◌≡◌, ◌≤◌, ◌++◌, List, [], Bool, false, Ok, All, Contains, IsTrue, OnOk, OnErr};
ghost use Rattle.tuple_schema.specs.Words.{Fits, IfFault};
ghost use Rattle.tuple_schema.specs.declared.value.Value.{Value};
ghost use Rattle.row_batch.specs.declared.rows.RowsFault.{RowsFault};
ghost use Rattle.row_batch.specs.Words.{IsFilled};

use crate::Batch;
use thiserror::Error;
use tuple_schema::{Stop, Tuple};

/// The number of a node of a flow.
pub type NodeNumber = u8;

/// What a fill did.
#[derive(Clone, Copy, Debug, PartialEq, Eq)]
pub enum Filled {
    /// It brought rows.
    Some,
    /// There are no rows any more.
    End,
}

/// What is wrong with rows that an operator or a filter is brought.
#[derive(Debug, PartialEq, Eq, Drop, Error)]
pub enum RowsFault {
    /// A node numbers more rows than there are numbers.
    #[error("too many rows at node {node}")]
    TooManyRows { node: NodeNumber },
    /// The rows of an edge ended without the last committed key.
    #[error("the last committed key is absent at edge {edge}")]
    LastKeyAbsent { edge: NodeNumber, key: Tuple },
}

/// Rows that are still to come, in batches.
pub trait Rows {
    /// The rows to come.
    ghost to_come: { Self → List (List Value) };

    /// The faults that the rows have. No call that answers Ok changes them.
    ghost broken: { Self → List RowsFault };

    ghost is_sound: { Self → Bool };

    /// Whether no call has failed. What failed is asked for no more rows.
    fn sound(&self) -> bool
        ensures { result ≡ is_sound self.now };

    /// Brings the first rows to come into the empty batch, at least one and at most as many as wanted.
    fn fill(&mut self, into: &mut Batch, want: u32) -> Result<Filled, Stop<RowsFault>>
        requires sound { IsTrue (is_sound self.old) }
        requires empty { into.old.rows ≡ [] }
        requires fit { All (Fits into.old.columns) (to_come self.old) }
        requires some_wanted { 1 ≤ want }
        requires few_wanted { want ≤ 4096 }
        ensures first { OnOk result (to_come self.old ≡ into.new.rows ++ to_come self.new) }
        ensures some { result ≡ Ok Filled.Some → IsFilled want into.new.rows }
        ensures end { result ≡ Ok Filled.End →
            (into.new.rows ≡ []) × (to_come self.old ≡ []) × (broken self.old ≡ []) }
        ensures broken { OnOk result (broken self.new ≡ broken self.old) }
        ensures sound { OnOk result (IsTrue (is_sound self.new)) }

        // A fault is one that the rows have. After any error the batch is empty.
        ensures fault { IfFault result (Contains (broken self.old)) }
        ensures err_sound { OnErr result (is_sound self.new ≡ false) }
        ensures err_empty { OnErr result (into.new.rows ≡ []) }
        ensures columns { into.new.columns ≡ into.old.columns };
}
