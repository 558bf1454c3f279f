// Flows.
ghost use Rattle.std.specs.Prelude.{◌≡◌, ◌==◌, Some, length, position, option_map, option_copied, IsSome, IfSome, IsTrue, All};
ghost use Rattle.tuple_schema.specs.Words.{Gives};
ghost use Rattle.workflow_file.specs.Words.{KeepsRules};
ghost use Rattle.flow_types.specs.Words.{is_built, typed, number_of, node_of, root_in, has_fixed_root, rank_of};
ghost use Rattle.flow_types.specs.Words.{IsBelow, IsFlow};

use crate::fault::{NodeId, SchemaFault};
use crate::graph::read_graph;
use crate::node::{Cols, Kind, Node};
use crate::typing::type_tree;
use std::alloc::Global;
use std::marker::Model;
use tuple_schema::{Names, Schema, Stop};
use workflow_file::RawFlow;

/// A typed flow: its nodes, each behind its inputs, the root, which is the table's input, last; and the
/// columns of the table's key. A contract sees it as these.
#[derive(Debug, Drop)]
pub struct Flow {
    nodes: Vec<Node>,
    key: Option<Cols>,
}

impl Model for Flow {
    ghost use Rattle.flow_types.specs.Flows.{TypedFlow};
    ghost use Rattle.flow_types.specs.Linked.{IsFlow};
    ghost use Rattle.expr_grammar.specs.contracts.expr.Expr as expression;
    ghost use Rattle.std.specs.Coded.{codes};

    ghost Value = { TypedFlow };

    ghost coded = { Prim.hlevel (codes, expression.the_row.coded) };

    ghost view = { λ f. record { nodes = f.nodes.items; key = f.key } };

    ghost invariant = { λ f. IsFlow (record { nodes = f.nodes.items; key = f.key }) };
}

impl Flow {
    /// The nodes, each behind its inputs, the root last.
    pub fn nodes(&self) -> &[Node]
        ensures same { result.now ≡ self.now.nodes }
        ensures flow { IsFlow self.now }
        ensures fixed { IsTrue (has_fixed_root self.now.nodes) }
    {
        &self.nodes
    }

    /// The node whose rows the table takes.
    pub fn root(&self) -> NodeId
        ensures { Some result ≡ option_map (λ n. n.id) (root_in self.now.nodes) }
    {
        self.root_node().id
    }

    /// That node itself.
    pub fn root_node(&self) -> &Node
        ensures last { Some result.now ≡ root_in self.now.nodes }
        ensures flow { IsFlow self.now }
        ensures fixed { IsTrue (has_fixed_root self.now.nodes) }
    {
        &self.nodes[self.nodes.len() - 1]
    }

    /// The columns of the table's key.
    pub fn key(&self) -> Option<&Cols>
        ensures { option_copied result ≡ self.now.key }
    {
        self.key.as_ref()
    }

    /// How many nodes there are.
    pub fn count(&self) -> usize
        ensures { result ≡ length self.now.nodes }
    {
        self.nodes.len()
    }

    /// The place of the node among the nodes, each of which has a higher one than its inputs.
    pub fn rank(&self, node: NodeId) -> u8
        requires { IsSome (node_of self.now node) }
        ensures place { Some result ≡ rank_of self.now node }
        ensures above { IfSome (node_of self.now node) (λ n. All (IsBelow self.now result) n.inputs) }
    {
        match place_in(&self.nodes, node) {
            Some(rank) => rank as u8,
            None => unreachable!(),
        }
    }

    /// The node.
    pub fn node(&self, node: NodeId) -> &Node
        requires { IsSome (node_of self.now node) }
        ensures { Some result.now ≡ node_of self.now node }
    {
        &self.nodes[self.rank(node) as usize]
    }

    pub fn kind(&self, node: NodeId) -> &Kind
        requires { IsSome (node_of self.now node) }
        ensures { Some result.now ≡ option_map (λ n. n.kind) (node_of self.now node) }
    {
        &self.node(node).kind
    }

    pub fn name(&self, node: NodeId) -> &str
        requires { IsSome (node_of self.now node) }
        ensures { Some result.now ≡ option_map (λ n. n.name) (node_of self.now node) }
    {
        self.node(node).name.as_str()
    }

    /// The columns of the rows that it gives.
    pub fn schema(&self, node: NodeId) -> &Schema
        requires { IsSome (node_of self.now node) }
        ensures { Some result.now ≡ option_map (λ n. n.schema) (node_of self.now node) }
    {
        &self.node(node).schema
    }

    pub fn inputs(&self, node: NodeId) -> &[NodeId]
        requires { IsSome (node_of self.now node) }
        ensures { Some result.now ≡ option_map (λ n. n.inputs) (node_of self.now node) }
    {
        self.node(node).inputs.nodes()
    }

    /// What it declares.
    pub fn declared(&self, node: NodeId) -> &Names
        requires { IsSome (node_of self.now node) }
        ensures { Some result.now ≡ option_map (λ n. n.declared) (node_of self.now node) }
    {
        &self.node(node).declared
    }
}

fn place_in(nodes: &[Node], node: NodeId) -> Option<usize>
    ensures { result ≡ position (λ n. number_of n == node.0) nodes.now }
{
    nodes.iter().position(|n| n.id.0 == node.0)
}

/// The typed flow, or the first fault of the raw one. A name that comes twice is told before an input
/// that isn't there, then a node that is used twice, one that isn't reached, and each node's own
/// columns, inputs first.
#[tactic(auto, unfolding(crate::specs::Typed::typed))]
pub fn type_flow(alloc: Global, raw: &RawFlow) -> Result<Flow, Stop<SchemaFault>>
    requires kept { KeepsRules raw.now }
    requires built { IsTrue (is_built raw.now) }
    ensures typed { Gives result (typed raw.now) }
{
    let graph = read_graph(alloc, raw)?;
    let mut nodes = Vec::new(alloc);
    let depth = graph.links.len() - 1;
    type_tree(alloc, raw, &graph.links, depth, graph.root, &mut nodes)?;
    Ok(Flow { nodes, key: None })
}
