// The graph of a flow.
ghost use Rattle.std.specs.Prelude.{◌≡◌, ◌-◌, ◌<◌, ◌≤◌, ◌++◌, ◌∷◌, ◌||◌, ◌==◌, [], ℕ, Some, Ok, false, is_some, map, filter_map, length, vec_len, get_or, count_by, option_to_list, unwrap_or, All, IfOk, OnOk};
ghost use Rattle.std.specs.List.{concat};
ghost use Rattle.tuple_schema.specs.Words.{Gives, GivesView, IfFault};
ghost use Rattle.workflow_file.specs.Words.{KeepsRules};
ghost use Rattle.list_algebra.specs.Words.{in_order};
ghost use Rattle.flow_types.specs.Words.{tree_below, inputs_below, IsWhole, names_of, input_names, needs_of};
ghost use Rattle.flow_types.specs.Words.{links_of, AreWithin, fault_at, input_fault, inputs_exist, root_at};
ghost use Rattle.flow_types.specs.Words.{place_of};
ghost use Rattle.flow_types.specs.Words.{used_once, is_in, all_reached, flow_tree, graph_of, ComeOnce};

use crate::fault::{NodeId, SchemaCause, SchemaFault};
use crate::named::Places;
use std::alloc::Global;
use std::marker::Model;
use tuple_schema::{Memory, Names, Stop, Text};
use workflow_file::{RawFlow, RawNode};

/// The places of a node's inputs, in order. A contract sees them as their list.
#[derive(Drop)]
pub struct Link {
    inputs: Vec<usize>,
}

impl Model for Link {
    ghost use Rattle.std.specs.Prelude.{List, ℕ};

    ghost Value = { List ℕ };

    ghost view = { λ l. l.inputs.items };
}

impl Link {
    fn inputs(&self) -> &[usize]
        ensures { result.now ≡ self.now }
    {
        &self.inputs
    }
}

/// The place of the table's input, and the inputs of each node.
#[derive(Drop)]
pub struct Graph {
    pub root: usize,
    pub links: Vec<Link>,
}

/// The graph of a flow whose names fit together, or the first fault.
pub fn read_graph(alloc: Global, raw: &RawFlow) -> Result<Graph, Stop<SchemaFault>>
    requires kept { KeepsRules raw.now }
    ensures graph { GivesView (λ g. flow_tree g.root g.links.items) result (graph_of raw.now) }
    ensures links { IfOk result (λ g. g.links.items ≡ links_of raw.now) }
    ensures within { IfOk result (λ g. AreWithin g.links.items) }
    ensures there { OnOk result (inputs_exist (names_of raw.now) (needs_of raw.now) ≡ Ok tt) }
    ensures root { IfOk result (λ g. g.root < vec_len g.links) }
    ensures whole { IfOk result (λ g. IsWhole g.links.items (vec_len g.links - 1) g.root) }
    ensures inside { IfOk result (λ g. All (λ place. place < length (names_of raw.now))
        (in_order (flow_tree g.root g.links.items))) }
    ensures few { IfOk result (λ g. length (in_order (flow_tree g.root g.links.items)) ≤ 80) }
    ensures once { IfOk result (λ g. ComeOnce (in_order (flow_tree g.root g.links.items))) }
{
    let names = names_of(alloc, raw)?;
    let places = Places::of(alloc, &names)?;
    let links = links_of(alloc, raw, &places)?;
    let root = root_at(&places, &raw.table.input)?;
    used_once(alloc, root, &links)?;
    all_reached(alloc, root, &links)?;
    Ok(Graph { root, links })
}

// The names of the nodes, sources first.
fn names_of(alloc: Global, raw: &RawFlow) -> Result<Vec<&Text>, Memory>
    ensures { IfOk result (λ v. map (λ n. n.now) v.items ≡ names_of raw.now) }
{
    let mut names = source_names(alloc, raw)?;
    for node in raw.nodes.items() {
        names.push(&node.name)?;
    }
    Ok(names)
}

fn source_names(alloc: Global, raw: &RawFlow) -> Result<Vec<&Text>, Memory>
    ensures { IfOk result (λ v. map (λ n. n.now) v.items ≡ map (λ s. s.name) raw.now.sources) }
{
    let mut names = Vec::new(alloc);
    for source in raw.sources.items() {
        names.push(&source.name)?;
    }
    Ok(names)
}

/// The fault of the node at a place.
pub fn fault_at(place: usize, cause: SchemaCause) -> SchemaFault
    requires { place < 256 }
    ensures { result ≡ fault_at place cause }
{
    SchemaFault {
        node: Some(NodeId(place as u8)),
        cause,
    }
}

// The names of the inputs of the node at a place: a source has none.
fn needs_at(alloc: Global, raw: &RawFlow, place: usize) -> Result<Vec<&Text>, Memory>
    ensures { IfOk result (λ v. map (λ n. n.now) v.items ≡ get_or (needs_of raw.now) place []) }
{
    let sources = raw.sources.items();
    let nodes = raw.nodes.items();
    if place < sources.len() {
        return Ok(Vec::new(alloc));
    }
    let below = place - sources.len();
    if below >= nodes.len() {
        return Ok(Vec::new(alloc));
    }
    input_names(alloc, &nodes[below])
}

// The names of a node's inputs, in order.
fn input_names(alloc: Global, node: &RawNode) -> Result<Vec<&Text>, Memory>
    ensures { IfOk result (λ v. map (λ n. n.now) v.items ≡ input_names node.now) }
{
    let mut names = Vec::new(alloc);
    push_name(&mut names, &node.input)?;
    push_name(&mut names, &node.left)?;
    push_name(&mut names, &node.right)?;
    push_names(&mut names, &node.inputs)?;
    Ok(names)
}

fn push_name<'r>(names: &mut Vec<&'r Text>, name: &'r Option<Text>) -> Result<(), Memory>
    ensures { OnOk result (map (λ n. n.now) names.new.items
        ≡ map (λ n. n.now) names.old.items ++ option_to_list name.now) }
{
    if let Some(name) = name {
        names.push(name)?;
    }
    Ok(())
}

fn push_names<'r>(names: &mut Vec<&'r Text>, more: &'r Option<Names>) -> Result<(), Memory>
    ensures { OnOk result (map (λ n. n.now) names.new.items
        ≡ map (λ n. n.now) names.old.items ++ unwrap_or more.now []) }
{
    let Some(more) = more else {
        return Ok(());
    };
    for name in more.items() {
        names.push(name)?;
    }
    Ok(())
}

// The inputs of each node, or the first that isn't there.
fn links_of(alloc: Global, raw: &RawFlow, places: &Places) -> Result<Vec<Link>, Stop<SchemaFault>>
    requires kept { KeepsRules raw.now }
    requires names { places.now ≡ names_of raw.now }
    ensures inputs { GivesView (λ _. tt) result (inputs_exist (names_of raw.now) (needs_of raw.now)) }
    ensures links { IfOk result (λ v. v.items ≡ links_of raw.now) }
    ensures within { IfOk result (λ v. AreWithin v.items) }
    ensures len { IfOk result (λ v. vec_len v ≡ length places.now) }
{
    let mut links = Vec::new(alloc);
    for place in 0..places.len() {
        links.push(link_of(alloc, raw, places, place)?)?;
    }
    Ok(links)
}

// The places of the inputs of the node at a place, or the first that isn't there.
fn link_of(
    alloc: Global,
    raw: &RawFlow,
    places: &Places,
    place: usize,
) -> Result<Link, Stop<SchemaFault>>
    requires place { place < 256 }
    ensures link { IfOk result (λ link. link ≡ filter_map (place_of places.now)
        (get_or (needs_of raw.now) place [])) }
    ensures there { OnOk result (is_some (input_fault places.now (needs_of raw.now) place) ≡ false) }
    ensures within { IfOk result (λ link. All (λ input. input < length places.now) link) }
    ensures missing { IfFault result (λ fault. input_fault places.now (needs_of raw.now) place ≡ Some fault) }
{
    let names = needs_at(alloc, raw, place)?;
    let mut inputs = Vec::new(alloc);
    for name in &names {
        let Some(input) = places.place(name) else {
            let name = name.copy()?;
            let cause = SchemaCause::NoInput { name };
            return Err(Stop::Fault(fault_at(place, cause)));
        };
        inputs.push(input)?;
    }
    Ok(Link { inputs })
}

// The place of the table's input.
fn root_at(places: &Places, input: &Text) -> Result<usize, Stop<SchemaFault>>
    ensures root { Gives result (root_at input.now (place_of places.now input.now)) }
    ensures within { IfOk result (λ root. root < length places.now) }
{
    match places.place(input) {
        Some(root) => Ok(root),
        None => {
            let name = input.copy()?;
            let cause = SchemaCause::NoInput { name };
            Err(Stop::Fault(SchemaFault { node: None, cause }))
        }
    }
}

// The table's input, and the inputs of all nodes.
fn all_uses(alloc: Global, root: usize, links: &[Link]) -> Result<Vec<usize>, Memory>
    ensures { IfOk result (λ v. v.items ≡ root ∷ concat links.now) }
{
    let mut uses = Vec::new(alloc);
    uses.push(root)?;
    for link in links {
        uses.extend_from_slice(link.inputs())?;
    }
    Ok(uses)
}

// How often the place is among the uses.
fn count_uses(uses: &[usize], place: usize) -> usize
    ensures { result ≡ count_by (λ p. p == place) uses.now }
{
    uses.iter().filter(|p| **p == place).count()
}

fn used_once(alloc: Global, root: usize, links: &[Link]) -> Result<(), Stop<SchemaFault>>
    requires few { length links.now < 256 }
    ensures { Gives result (used_once root links.now) }
{
    let uses = all_uses(alloc, root, links)?;
    for place in 0..links.len() {
        if count_uses(&uses, place) > 1 {
            return Err(Stop::Fault(fault_at(place, SchemaCause::UsedTwice)));
        }
    }
    Ok(())
}

/// The inputs of the node at a place that a tree of this depth has.
pub fn inputs_below(links: &[Link], depth: usize, place: usize) -> &[usize]
    ensures inputs { result.now ≡ inputs_below links.now depth place }
    ensures deeper { 0 < length result.now → 0 < depth }
    ensures within { AreWithin links.now → All (λ input. input < length links.now) result.now }
{
    if depth == 0 || place >= links.len() {
        return &[];
    }
    links[place].inputs()
}

// Marks the nodes of a tree.
fn reach(links: &[Link], depth: usize, place: usize, reached: &mut [bool])
    requires all { length reached.old ≡ length links.now }
    requires place { place < length links.now }
    requires within { AreWithin links.now }
    ensures len { length reached.new ≡ length reached.old }
    ensures marked { (k : ℕ) → get_or reached.new k false ≡ (get_or reached.old k false
        || is_in (tree_below links.now depth place) k) }
{
    for input in inputs_below(links, depth, place) {
        reach(links, depth - 1, *input, reached);
    }
    reached[place] = true;
}

// Whether the table's input reaches the node, at each place.
fn mark_reached(alloc: Global, root: usize, links: &[Link]) -> Result<Vec<bool>, Memory>
    requires root { root < length links.now }
    requires within { AreWithin links.now }
    ensures len { IfOk result (λ v. vec_len v ≡ length links.now) }
    ensures reached { IfOk result (λ v. (place : ℕ) → place < length links.now
        → get_or v.items place false ≡ is_in (flow_tree root links.now) place) }
{
    let mut reached = vec![in alloc; false; links.len()]?;
    reach(links, links.len() - 1, root, &mut reached);
    Ok(reached)
}

fn all_reached(alloc: Global, root: usize, links: &[Link]) -> Result<(), Stop<SchemaFault>>
    requires few { length links.now < 256 }
    requires root { root < length links.now }
    requires within { AreWithin links.now }
    ensures { Gives result (all_reached root links.now) }
{
    let reached = mark_reached(alloc, root, links)?;
    for place in 0..reached.len() {
        if !reached[place] {
            return Err(Stop::Fault(fault_at(place, SchemaCause::NotReached)));
        }
    }
    Ok(())
}
