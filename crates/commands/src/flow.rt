// The typed flow of `flow.toml`.
ghost use Rattle.std.specs.Prelude.{◌≡◌, ◌≤◌, IsTrue, IfOk, OnOk, length};
ghost use Rattle.workflow_file.specs.Words.{KeepsRules};
ghost use Rattle.flow_types.specs.Words.{is_built, typed};
ghost use Rattle.commands.specs.Words.{Tells, IsAsked, built_in, typed_in, raw_in, typed_of};

use crate::Reason;
use flow_types::{Flow, is_built, type_flow};
use std::alloc::Global;
use tuple_schema::Stop;
use workflow_file::{RawFlow, read_flow};

/// The raw flow that the text is, or the first fault in it.
pub fn raw_in(alloc: Global, text: &[u8]) -> Result<RawFlow, Reason>
    requires { length text.now ≤ 65536 }
    ensures tells { Tells result (raw_in text.now) }
    ensures causes { IsAsked ⊥ result }
    ensures kept { IfOk result KeepsRules }
{
    match read_flow(alloc, text) {
        Ok(raw) => Ok(raw),
        Err(Stop::Memory) => Err(Reason::Memory),
        Err(Stop::Fault(fault)) => Err(Reason::Flow(fault)),
    }
}

/// The typed flow that a raw one is, or the first fault in it.
pub fn typed_of(alloc: Global, raw: &RawFlow) -> Result<Flow, Reason>
    requires kept { KeepsRules raw.now }
    ensures tells { Tells result (typed_of raw.now) }
    ensures causes { IsAsked ⊥ result }
{
    expect_built(raw)?;
    typed(alloc, raw)
}

// The flow has to be one that can be typed at this stage.
fn expect_built(raw: &RawFlow) -> Result<(), Reason>
    ensures tells { Tells result (built_in raw.now) }
    ensures causes { IsAsked ⊥ result }
    ensures built { OnOk result (IsTrue (is_built raw.now)) }
{
    if is_built(raw) {
        return Ok(());
    }
    Err(Reason::NotBuilt)
}

// The typed flow of a raw one that is built.
fn typed(alloc: Global, raw: &RawFlow) -> Result<Flow, Reason>
    requires kept { KeepsRules raw.now }
    requires built { IsTrue (is_built raw.now) }
    ensures tells { Tells result (typed_in (typed raw.now)) }
    ensures causes { IsAsked ⊥ result }
{
    match type_flow(alloc, raw) {
        Ok(flow) => Ok(flow),
        Err(Stop::Memory) => Err(Reason::Memory),
        Err(Stop::Fault(fault)) => Err(Reason::Schema(fault)),
    }
}
