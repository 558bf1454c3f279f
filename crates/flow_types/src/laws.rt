// The tree of a flow.
ghost use Rattle.std.specs.Prelude.{◌≡◌, ℕ, [], ◌∷◌, Some, Ok, slice_get};
ghost use Rattle.workflow_file.specs.declared.raw.RawFlow.{RawFlow};
ghost use Rattle.list_algebra.specs.Words.{Tree, root_of, seen_tree, trees_in, EachNext};
ghost use Rattle.flow_types.specs.declared.node.Node.{Node};
ghost use Rattle.flow_types.specs.Words.{graph_of, TypedFlow, number_of, count_inputs, tree_of, root_in, node_of};
ghost use Rattle.flow_types.specs.Words.{typed, IsLinkedOver, IsFlow};

/// The tree of a flow. It does nothing: its contract is the laws.
pub fn tree_laws()
    // The numbers of its nodes make the tree that the names in the raw flow make.
    ensures made { (raw : RawFlow) (places : Tree ℕ) (flow : TypedFlow) (t : Tree Node) → graph_of raw ≡ Ok places
        → typed raw ≡ Ok flow
        → tree_of flow.nodes ≡ Some t → seen_tree number_of t ≡ places }

    // Its nodes make its tree alone, and the root is the last of them.
    ensures alone { (flow : TypedFlow) (is : IsFlow flow) → trees_in count_inputs flow.nodes ≡ is.tree ∷ [] }
    ensures root { (flow : TypedFlow) (is : IsFlow flow) → root_in flow.nodes ≡ Some (root_of is.tree) }

    // Each node is found by its number.
    ensures found { (flow : TypedFlow) → IsFlow flow → (place : ℕ) (n : Node) → slice_get flow.nodes place ≡ Some n
        → node_of flow n.id ≡ Some n }

    // Each node stands over the trees of its inputs, when it comes behind the nodes before it.
    ensures next { (flow : TypedFlow) → IsFlow flow → EachNext count_inputs IsLinkedOver [] flow.nodes }
{}
