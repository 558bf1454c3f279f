// What may be wrong with a raw flow.
use expr_grammar::ExprWhat;
use tuple_schema::Text;

/// A node of a flow: the sources in the order of the file from 0 on, then the transforms in that order.
#[derive(Clone, Copy, Debug, PartialEq, Eq)]
pub struct NodeId(pub u8);

/// Why a raw flow is no flow.
#[derive(Debug, PartialEq, Eq, Drop)]
pub enum SchemaCause {
    /// An earlier node has the same name.
    NameTwice,
    /// There is no node of this name, which is named as an input.
    NoInput { name: Text },
    /// The node is an input twice; the table's input counts.
    UsedTwice,
    /// The table's input doesn't reach the node.
    NotReached,
    /// The input has no column of this name.
    UnknownColumn { column: Text },
    /// The first column of a list that has the name of an earlier one.
    DoubleColumn { column: Text },
    /// Two columns that a join pairs have different kinds.
    KindDiffers,
    /// The text of an expression is wrong at this byte of it.
    BadExpr { at: u32, what: ExprWhat },
    /// The kinds in an expression don't go together, or it is no truth in `where`, or a truth in `set`.
    BadType,
    /// There would be more than 64 columns.
    TooManyColumns,
}

/// The first fault of a raw flow, and its node; None is the table.
#[derive(Debug, PartialEq, Eq, Drop)]
pub struct SchemaFault {
    pub node: Option<NodeId>,
    pub cause: SchemaCause,
}
