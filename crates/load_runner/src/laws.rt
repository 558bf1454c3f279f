// What holds of any number of loads.
ghost use Rattle.std.specs.Prelude.{◌≡◌, ◌≤◌, ◌+◌, ℕ, List, length, Bool, true, false, IsTrue, Ok, Some};
ghost use Rattle.list_algebra.specs.Words.{Tuple, Tree};
ghost use Rattle.outside.specs.Words.{Files};
ghost use Rattle.tuple_schema.specs.declared.schema.Column.{Column};
ghost use Rattle.commit_disk.specs.Words.{Stored};
ghost use Rattle.flow_types.specs.Words.{TypedFlow, has_fixed_root, IsFlow};
ghost use Rattle.kind_laws.specs.Words.{Yield, at_root, Lists, whole_of};
ghost use Rattle.table_read.specs.Words.{table_rows};
ghost use Rattle.table_write.specs.Words.{cut, HoldsRows};
ghost use Rattle.load_runner.specs.Words.{FoundOnce, KeepsTruth, IsRest, Resumes, IsAllMissing, IsGrown, Stands};
ghost use Rattle.load_runner.specs.Words.{IsAll, Standing, nothing, IsStep, IsHistory, AllStandFrom};

use commit_disk::{holds_once, verdicts_agree};
use flow_types::tree_laws;
use list_algebra::bag_laws;
use table_write::{blocks_laws, cut_laws};

/// The table's file is found to be one thing alone. It does nothing: its contract is the law.
pub fn found_once()
    ensures { FoundOnce }
{
    holds_once();
    verdicts_agree();
}

/// After any number of loads, each stopped at any moment or not, each over files that keep one truth: the table's rows
/// stand for the meaning, no load takes rows back, and an ended table holds all of them. It does nothing: its contract
/// is the laws. Each is of flows of which the order is fixed, as it is of all that are built at this stage.
pub fn any_loads()
    // A trimmed run over files that keep a truth brings a rest.
    ensures rest { (flow : TypedFlow) (files : Files) (truth : Lists) (committed : List Tuple) (run : Tree Yield)
        → KeepsTruth files flow.nodes truth → Resumes flow (Some files) committed run
        → IsRest flow truth committed (at_root run) }
    // Any rest is just what is missing.
    ensures missing { (flow : TypedFlow) → IsFlow flow → IsTrue (has_fixed_root flow.nodes)
        → (truth : Lists) (whole committed rest : List Tuple) → whole_of flow.nodes truth ≡ Some whole
        → Stands (has_fixed_root flow.nodes) whole committed false → IsRest flow truth committed rest
        → IsAllMissing (has_fixed_root flow.nodes) whole committed rest }
    // Each image that a load leaves, which holds the blocks of the file before it and the first blocks of a rest, is
    // one step of such a history away from the rows that were committed.
    ensures step { (flow : TypedFlow) (truth : Lists) (file text image : List ℕ) (columns : List Column)
        (olds : List Stored) (batch : ℕ) (committed rest rows : List Tuple) (ended : Bool) → 1 ≤ batch → batch ≤ 4096
        → table_rows columns (16 + length text) olds ≡ Ok committed → IsRest flow truth committed rest
        → IsGrown file text columns olds (cut batch rest) image
        → HoldsRows image text columns rows ended
        → IsStep flow truth (record { rows = committed; ended = false }) (record { rows = rows; ended = ended }) }
    // What stands after each load of a history.
    ensures stand { (flow : TypedFlow) → IsFlow flow → IsTrue (has_fixed_root flow.nodes)
        → (truth : Lists) (whole : List Tuple) → whole_of flow.nodes truth ≡ Some whole
        → (standings : List Standing) → IsHistory flow truth standings
        → AllStandFrom (has_fixed_root flow.nodes) whole nothing standings }
    // Rows that stand in an ended table are all of the meaning.
    ensures ended { (fixed : Bool) (whole rows : List Tuple) → Stands fixed whole rows true
        → IsAll fixed whole rows }
{
    holds_once();
    verdicts_agree();
    blocks_laws();
    cut_laws();
    bag_laws();
    tree_laws();
}
