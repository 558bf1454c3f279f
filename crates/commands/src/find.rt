// The flow of a folder.
ghost use Rattle.std.specs.Prelude.{◌≡◌, ◌≤◌, ◌+◌, Some, IfOk, IfErr, length, codes};
ghost use Rattle.outside.specs.Words.{Rose, Files, file_at, Consults, found_in, size_of};
ghost use Rattle.flow_types.specs.Words.{names_of};
ghost use Rattle.commands.specs.Words.{TellsView, IsAsked, in_reasons, HasLineBy, text_in, raw_in, flow_of_text};
ghost use Rattle.commands.specs.Words.{flow_of_files, declared_names, known_names, flow_text_of};

use crate::Reason;
use crate::flow::{raw_in, typed_of};
use crate::refusal::Refusal;
use flow_types::Flow;
use outside::{Depot, WholeFile, read_whole};
use std::alloc::Global;
use tuple_schema::Stop;
use workflow_file::RawFlow;

/// The longest `flow.toml`, in bytes.
const MAX_FLOW: u64 = 65_536;

/// The flow of a folder, with its text, and the raw flow, which has the names of all nodes.
#[derive(Drop)]
pub struct Found {
    pub text: Vec<u8>,
    pub raw: RawFlow,
    pub flow: Flow,
}

/// The flow of the folder, or why it is refused. Nothing is written.
pub fn find<D: Depot>(alloc: Global, depot: &mut D) -> Result<Found, Refusal>
    ensures tells { (files : Files) → (D.state depot.old).files ≡ Some files
        → TellsView flow_text_of (in_reasons result) (flow_of_files files) }
    ensures causes { IsAsked (Rose (D.state depot.old).faults (D.state depot.new).faults) (in_reasons result) }
    ensures named { (files : Files) → (D.state depot.old).files ≡ Some files
        → IfOk result (λ found. names_of found.raw ≡ known_names files) }
    ensures line { (files : Files) → (D.state depot.old).files ≡ Some files
        → IfErr result (HasLineBy (known_names files)) }
    ensures consults { Consults (D.state depot.old) (D.state depot.new) }
    ensures served { (files : Files) → (D.state depot.old).files ≡ Some files
        → (D.state depot.new).served ≤ (D.state depot.old).served + size_of (file_at files (codes "flow.toml")) }
    ensures short { IfOk result (λ found. length found.text.items ≤ 65536) }
{
    match read_text(alloc, depot) {
        Ok(text) => with_flow(alloc, text),
        Err(reason) => Err(Refusal { reason, flow: None }),
    }
}

// The flow that the text is.
fn with_flow(alloc: Global, text: Vec<u8>) -> Result<Found, Refusal>
    requires short { length text.items ≤ 65536 }
    ensures tells { TellsView flow_text_of (in_reasons result) (flow_of_text text.items) }
    ensures causes { IsAsked ⊥ (in_reasons result) }
    ensures named { IfOk result (λ found. names_of found.raw ≡ declared_names (raw_in text.items)) }
    ensures line { IfErr result (HasLineBy (declared_names (raw_in text.items))) }
    ensures short { IfOk result (λ found. length found.text.items ≤ 65536) }
{
    let raw = match raw_in(alloc, &text) {
        Ok(raw) => raw,
        Err(reason) => return Err(Refusal { reason, flow: None }),
    };
    match typed_of(alloc, &raw) {
        Ok(flow) => Ok(Found { text, raw, flow }),
        Err(reason) => Err(Refusal {
            reason,
            flow: Some(raw),
        }),
    }
}

// The text of `flow.toml`.
fn read_text<D: Depot>(alloc: Global, depot: &mut D) -> Result<Vec<u8>, Reason>
    ensures tells { (files : Files) → (D.state depot.old).files ≡ Some files
        → TellsView (λ v. v.items) result (text_in (found_in 65536 (file_at files (codes "flow.toml")))) }
    ensures causes { IsAsked (Rose (D.state depot.old).faults (D.state depot.new).faults) result }
    ensures consults { Consults (D.state depot.old) (D.state depot.new) }
    ensures served { (files : Files) → (D.state depot.old).files ≡ Some files
        → (D.state depot.new).served ≤ (D.state depot.old).served + size_of (file_at files (codes "flow.toml")) }
    ensures short { IfOk result (λ v. length v.items ≤ 65536) }
{
    match read_whole(alloc, depot, "flow.toml", MAX_FLOW) {
        Ok(WholeFile::Read(text)) => Ok(text),
        Ok(WholeFile::TooLarge { size }) => Err(Reason::FlowTooLong { size }),
        Ok(WholeFile::Missing) => Err(Reason::FlowMissing),
        Err(Stop::Memory) => Err(Reason::Memory),
        Err(Stop::Fault(_)) => Err(Reason::Depot),
    }
}
