// The nodes of a flow.
ghost use Rattle.std.specs.Prelude.{◌≡◌};

use crate::fault::NodeId;
use expr_grammar::Expr;
use std::marker::Model;
use tuple_schema::{Listed, Names, Schema, Text};

/// A list of places of columns. A contract sees it as that list.
#[derive(Debug, Drop)]
pub struct Cols {
    places: Vec<usize>,
}

impl Model for Cols {
    ghost use Rattle.std.specs.Prelude.{List, ℕ};

    ghost Value = { List ℕ };

    ghost view = { λ c. c.places.items };
}

impl Cols {
    pub fn of(places: Vec<usize>) -> Cols
        ensures { result ≡ places.items }
    {
        Cols { places }
    }

    pub fn places(&self) -> &[usize]
        ensures { result.now ≡ self.now }
    {
        &self.places
    }
}

/// The inputs of a node, in order. A contract sees them as their list.
#[derive(Debug, Drop)]
pub struct Inputs {
    nodes: Vec<NodeId>,
}

impl Model for Inputs {
    ghost use Rattle.std.specs.Prelude.{List};
    ghost use Rattle.flow_types.specs.declared.fault.NodeId.{NodeId};

    ghost Value = { List NodeId };

    ghost view = { λ i. i.nodes.items };
}

impl Inputs {
    pub fn of(nodes: Vec<NodeId>) -> Inputs
        ensures { result ≡ nodes.items }
    {
        Inputs { nodes }
    }

    pub fn nodes(&self) -> &[NodeId]
        ensures { result.now ≡ self.now }
    {
        &self.nodes
    }
}

/// A file of rows, and how it lists them. Columns that may be absent are None exactly where they are.
#[derive(Debug, Drop)]
pub struct Source {
    pub file: Text,
    /// The file is a packing.
    pub packed: bool,
    /// Its header may have any names.
    pub any_header: bool,
    /// The file lists the truth's rows in their order.
    pub seq: bool,
    pub key: Option<Cols>,
    /// The columns of which equal values stand together.
    pub grouped: Option<Cols>,
}

/// A column of a map's output, and the value that it is set to, of the row before.
#[derive(Debug, Drop)]
pub struct Assign {
    /// The column's place among those of the output.
    pub place: usize,
    pub value: Expr,
}

/// What a map sets, in the order of its text.
pub type Assigns = Listed<Assign>;

/// What is made of the rows of a group.
#[derive(Clone, Copy, Debug, PartialEq, Eq)]
pub enum Agg {
    /// How many rows there are.
    Count,
    /// In how many rows the column isn't Null.
    CountOf,
    /// The sum of the column's values.
    Sum,
    /// The least of them.
    Min,
    /// The greatest of them.
    Max,
}

/// A column that an aggregate makes, of the input's column at this place; of a count of rows it says nothing, and is 0.
#[derive(Debug, Drop)]
pub struct Make {
    pub what: Agg,
    pub column: usize,
}

/// What an aggregate makes of each group, in the order of its columns.
pub type Makes = Listed<Make>;

/// In which order an aggregate gives its groups.
#[derive(Clone, Copy, Debug, PartialEq, Eq)]
pub enum GroupOrder {
    /// As their first rows come.
    First,
    /// Ascending by their columns.
    Key,
}

/// What a node does.
#[derive(Debug, Drop)]
pub enum Kind {
    /// Reads a file.
    Source(Source),
    /// Keeps the rows of which the test is true.
    Select {
        test: Expr,
    },
    /// Takes these columns of its input, in this order.
    Project {
        from: Cols,
    },
    /// Gives each row with values set, in columns of its own or new ones behind them.
    Map {
        sets: Assigns,
    },
    /// Gives each left row with each right one that has equal values in these columns, none of them Null.
    Join {
        left: Cols,
        right: Cols,
    },
    /// The same, and a left row with which none agrees comes once, with Null behind it.
    Lookup {
        left: Cols,
        right: Cols,
    },
    /// Gives of each group of rows that are equal in these columns the values there, and behind them what it makes of the
    /// group's rows. Nulls are equal.
    Aggregate {
        by: Cols,
        makes: Makes,
        order: GroupOrder,
    },
    /// Gives the rows ascending by these columns, then by the others.
    Sort {
        by: Cols,
    },
    /// Gives the first of each equal row.
    Distinct,
    /// Gives the rows of its inputs, one input after the other; with `any`, in some order that leaves each input's.
    Union {
        any: bool,
    },
}

/// A node of a flow, with the columns of what it gives.
#[derive(Debug, Drop)]
pub struct Node {
    pub id: NodeId,
    pub name: Text,
    pub kind: Kind,
    pub inputs: Inputs,
    pub schema: Schema,
    /// What it declares, as texts; a source declares nothing.
    pub declared: Names,
}
