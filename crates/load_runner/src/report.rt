// What a load reports.
ghost use Rattle.std.specs.Prelude.{◌≡◌, IfOk};
ghost use Rattle.load_runner.specs.Words.{skip_report, ended_report, skip_counts};

use flow_types::NodeId;
use std::alloc::Global;
use tuple_schema::{Listed, Memory};

/// How many rows of a node passed the filter on its edge, and how many were dropped there.
#[derive(Clone, Copy, Debug, PartialEq, Eq)]
pub struct EdgeCount {
    pub edge: NodeId,
    pub passed: u64,
    pub dropped: u64,
}

/// The edges that were filtered.
pub type ReportEdges = Listed<EdgeCount>;

/// How many rows stood before a load, how many it added, and what its filters did.
#[derive(Debug, Drop)]
pub struct Report {
    pub committed_before: u64,
    pub added: u64,
    pub edges: ReportEdges,
}

/// The report of a load over an ended table.
pub fn ended_report(alloc: Global, before: u64) -> Report
    ensures { result ≡ ended_report before }
{
    Report {
        committed_before: before,
        added: 0,
        edges: ReportEdges::new(alloc),
    }
}

/// The report of a load that skips the rows that stand, of as many as there are in all.
pub fn skip_report(alloc: Global, root: NodeId, before: u64, whole: u64) -> Result<Report, Memory>
    ensures { IfOk result (λ r. r ≡ skip_report root before whole) }
{
    let added = whole.saturating_sub(before);
    Ok(Report {
        committed_before: before,
        added,
        edges: skip_counts(alloc, root, before, whole)?,
    })
}

// What was done at the root's edge.
fn skip_counts(alloc: Global, root: NodeId, before: u64, whole: u64) -> Result<ReportEdges, Memory>
    ensures { IfOk result (λ e. e ≡ skip_counts root before whole) }
{
    let mut edges = ReportEdges::new(alloc);
    if before > 0 {
        edges.push(EdgeCount {
            edge: root,
            passed: whole.saturating_sub(before),
            dropped: before.min(whole),
        })?;
    }
    Ok(edges)
}
