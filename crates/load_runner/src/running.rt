// A load, from beginning to end.
ghost use Rattle.std.specs.Prelude.{◌≡◌, ◌≤◌, length, drop};
ghost use Rattle.load_runner.specs.Words.{Loads};

use crate::fault::{LoadFault, of_sources, of_table, of_write};
use crate::finish::finish;
use crate::opening::{count_of, is_ended, open_table};
use crate::report::{Report, ended_report, skip_report};
use crate::sources::whole_rows;
use commit_disk::{MAX_FLOW_BYTES, MAX_ROWS, holds_once, verdicts_agree};
use flow_types::{Flow, tree_laws};
use list_algebra::bag_laws;
use outside::{Depot, Disk};
use row_batch::Batch;
use std::alloc::Global;
use table_write::{Writer, blocks_laws, cut_laws, still_laws};
use tuple_schema::Stop;

/// Loads what the table still lacks of the flow's meaning, in blocks of `batch` rows, and ends it. Ok is complete.
///
/// The text is the flow's own. A table that is ended is left as it is, and no source is read. What a stopped load has
/// committed stays: load again.
pub fn load<D: Depot, K: Disk>(
    alloc: Global,
    flow: &Flow,
    text: &[u8],
    batch: u32,
    depot: &mut D,
    disk: &mut K,
) -> Result<Report, Stop<LoadFault>>
    requires short { length text.now ≤ MAX_FLOW_BYTES }
    requires some { 1 ≤ batch }
    requires few { batch ≤ MAX_ROWS }
    ensures promise { Loads (record { flow = flow.now; text = text.now; batch = batch })
        (D.state depot.old) (D.state depot.new) (K.state disk.old) (K.state disk.new) result }
{
    holds_once();
    verdicts_agree();
    cut_laws();
    blocks_laws();
    still_laws();
    bag_laws();
    tree_laws();
    let root = flow.root_node();
    let found = match open_table(alloc, disk, text, &root.schema) {
        Ok(found) => found,
        Err(stop) => return Err(of_table(stop)),
    };
    let before = count_of(&found);
    if is_ended(&found) {
        return Ok(ended_report(alloc, before));
    }
    let mut writer = Writer::new(alloc)?;
    let whole = match whole_rows(alloc, flow, depot) {
        Ok(whole) => whole,
        Err(stop) => return Err(of_sources(stop)),
    };
    // The report comes first, so that no memory is wanted once the table is ended.
    let report = skip_report(alloc, root.id, before, whole.len() as u64)?;
    let from = place_behind(&whole, before);
    match finish(alloc, disk, found, text, &whole, from, batch, &mut writer) {
        Ok(()) => Ok(report),
        Err(stop) => Err(of_write(stop)),
    }
}

// The place behind so many rows, or behind all where there are fewer.
fn place_behind(whole: &Batch, count: u64) -> usize
    ensures within { result ≤ length whole.now.rows }
    ensures behind { drop result whole.now.rows ≡ drop count whole.now.rows }
{
    if count < whole.len() as u64 {
        count as usize
    } else {
        whole.len()
    }
}
