// What a node of a raw flow says, by its kind.
ghost use Rattle.std.specs.Prelude.{◌≡◌, ◌<◌, ◌+◌, Some, length, option_map, IsTrue};
ghost use Rattle.flow_types.specs.Words.{aggregate_text, is_append, is_built, name_at, names_of, order_of, text_of, text_at, text_seen, union_text};

use crate::node::GroupOrder;
use tuple_schema::Text;
use workflow_file::{RawFlow, RawNode, RawSource};

/// A source, a selection by the text of its test, a projection by the texts of its columns, a map by its texts, a join
/// or a lookup by the texts of its pairs, an aggregate by the names of its columns, the texts of what it makes and the
/// order of its groups, a sort by the names of its columns, a distinct, or a union by the names of its inputs.
#[derive(Clone, Copy)]
pub enum NodeText<'r> {
    Source(&'r RawSource),
    Select(&'r Text),
    Project(&'r [Text]),
    Map(&'r [Text]),
    Join(&'r [Text]),
    Lookup(&'r [Text]),
    Aggregate(&'r [Text], &'r [Text], GroupOrder),
    Sort(&'r [Text]),
    Distinct,
    Union(&'r [Text]),
}

/// What the node at a place says, sources first.
#[tactic(auto, using(crate::proofs::KeptTexts::says_something))]
pub fn text_at(raw: &RawFlow, place: usize) -> NodeText<'_>
    requires place { place < length raw.now.sources + length raw.now.nodes }
    requires built { IsTrue (is_built raw.now) }
    ensures { text_at raw.now place ≡ Some (text_seen result) }
{
    let sources = raw.sources.items();
    let nodes = raw.nodes.items();
    if place < sources.len() {
        return NodeText::Source(&sources[place]);
    }
    match text_of(&nodes[place - sources.len()]) {
        Some(text) => text,
        None => unreachable!(),
    }
}

// What a node that is no source says, where its kind is built.
fn text_of(node: &RawNode) -> Option<NodeText<'_>>
    ensures { option_map text_seen result ≡ text_of node.now }
{
    match node.kind.as_str() {
        "select" => Some(NodeText::Select(node.test.as_ref()?)),
        "project" => Some(NodeText::Project(node.columns.as_ref()?.items())),
        "map" => Some(NodeText::Map(node.set.as_ref()?.items())),
        "join" => Some(NodeText::Join(node.on.as_ref()?.items())),
        "lookup" => Some(NodeText::Lookup(node.on.as_ref()?.items())),
        "aggregate" => aggregate_text(node),
        "sort" => Some(NodeText::Sort(node.by.as_ref()?.items())),
        "distinct" => Some(NodeText::Distinct),
        "union" => union_text(node),
        _ => None,
    }
}

// What an aggregate says.
fn aggregate_text(node: &RawNode) -> Option<NodeText<'_>>
    ensures { option_map text_seen result ≡ aggregate_text node.now }
{
    let by = node.by.as_ref()?.items();
    let makes = node.make.as_ref()?.items();
    let order = order_of(node.order.as_ref()?);
    Some(NodeText::Aggregate(by, makes, order))
}

// The order in which groups come, by its word.
fn order_of(word: &Text) -> GroupOrder
    ensures { result ≡ order_of word.now }
{
    if word.as_str() == "key" {
        GroupOrder::Key
    } else {
        GroupOrder::First
    }
}

// What a union says, which is built where one input comes after the other.
fn union_text(node: &RawNode) -> Option<NodeText<'_>>
    ensures { option_map text_seen result ≡ union_text node.now }
{
    if !is_append(&node.order) {
        return None;
    }
    Some(NodeText::Union(node.inputs.as_ref()?.items()))
}

/// Whether the order is that of inputs of which one comes after the other.
pub fn is_append(order: &Option<Text>) -> bool
    ensures { result ≡ is_append order.now }
{
    match order {
        None => false,
        Some(word) => word.as_str() == "append",
    }
}

/// The name of the node at a place, sources first.
#[tactic(auto, using(crate::proofs::NodeNames::source_name, crate::proofs::NodeNames::node_name))]
pub fn name_at(raw: &RawFlow, place: usize) -> &Text
    requires { place < length raw.now.sources + length raw.now.nodes }
    ensures { result.now ≡ name_at (names_of raw.now) place }
{
    let sources = raw.sources.items();
    if place < sources.len() {
        return &sources[place].name;
    }
    &raw.nodes.items()[place - sources.len()].name
}
