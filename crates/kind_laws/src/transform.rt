// The nodes of a flow as transforms of whole lists.
use crate::aggregating::aggregate;
use crate::distinct::distinct;
use crate::joining::{join, lookup};
use crate::mapping::map;
use crate::projecting::project;
use crate::selecting::select;
use crate::sorting::sort;
use crate::uniting::unite;
use flow_types::{Kind, Node};
use row_batch::Batch;
use std::alloc::Global;
use tuple_schema::Memory;

/// What a node makes of the whole lists of its inputs.
pub trait Transform {
    ghost use Rattle.std.specs.Prelude.{◌≡◌, List, map, IfOk};
    ghost use Rattle.tuple_schema.specs.declared.value.Value.{Value};
    ghost use Rattle.tuple_schema.specs.declared.schema.Column.{Column};
    ghost use Rattle.row_batch.specs.Packing.{BatchOf};

    /// The list that it makes of these lists.
    ghost output: { Self → List (List (List Value)) → List (List Value) };

    /// The columns of what it makes.
    ghost columns: { Self → List Column };

    /// The lists that it takes.
    ghost takes: { Self → List BatchOf → Type 0 };

    /// Makes the list. Those of the inputs are given away, so that they are let go once it is made.
    fn out(&self, alloc: Global, lists: Vec<Batch>) -> Result<Batch, Memory>
        requires { takes self.now lists.items }
        ensures rows { IfOk result (λ b. b.rows ≡ output self.now (map (λ l. l.rows) lists.items)) }
        ensures columns { IfOk result (λ b. b.columns ≡ columns self.now) };
}

/// A node that is no source, over its inputs.
#[derive(Drop)]
pub struct Law<'a> {
    pub node: &'a Node,
    pub inputs: Vec<&'a Node>,
}

impl Transform for Law<'_> {
    ghost use Rattle.std.specs.Prelude.{map};
    ghost use Rattle.flow_types.specs.Flows.{columns_of};
    ghost use Rattle.kind_laws.specs.Outputs.{output_of};
    ghost use Rattle.kind_laws.specs.Laws.{CanTake};

    ghost output = { λ law. output_of law.node.now.kind (columns_of (map (λ n. n.now) law.inputs.items)) };

    ghost columns = { λ law. law.node.now.schema };

    ghost takes = { λ law. CanTake law.node.now (map (λ n. n.now) law.inputs.items) };

    fn out(&self, alloc: Global, lists: Vec<Batch>) -> Result<Batch, Memory> {
        let columns = &self.node.schema;
        match &self.node.kind {
            Kind::Source(_) => Batch::new(alloc, columns),
            Kind::Select { test } => select(alloc, test, &lists[0]),
            Kind::Project { from } => project(alloc, from.places(), columns, &lists[0]),
            Kind::Map { sets } => map(alloc, sets.items(), columns, &lists[0]),
            Kind::Join { left, right } => {
                let (left, right) = (left.places(), right.places());
                join(alloc, left, right, columns, &lists[0], &lists[1])
            }
            Kind::Lookup { left, right } => {
                let (left, right) = (left.places(), right.places());
                lookup(alloc, left, right, columns, &lists[0], &lists[1])
            }
            Kind::Aggregate { by, makes, order } => {
                let (by, makes) = (by.places(), makes.items());
                aggregate(alloc, by, makes, *order, columns, &lists[0])
            }
            Kind::Sort { by } => sort(alloc, by.places(), &lists[0]),
            Kind::Distinct => distinct(alloc, &lists[0]),
            Kind::Union { .. } => unite(alloc, columns, &lists),
        }
    }
}
