// What holds over several runs.
ghost use Rattle.std.specs.Prelude.{◌≡◌, ℕ, List, true, None, Some, IfOk, map, string_bytes};
ghost use Rattle.outside.specs.Words.{Files, file_of};
ghost use Rattle.tuple_schema.specs.declared.value.Value.{Value};
ghost use Rattle.flow_types.specs.Words.{has_fixed_root};
ghost use Rattle.load_runner.specs.Words.{Job, columns_of, HoldsAll, IsMeaning};
ghost use Rattle.commands.specs.Words.{loads, AsksFor};

use crate::{Ending, run};
use outside::{Depot, MemoryDisk, Sink, Torn};
use std::alloc::Global;
use tuple_schema::Memory;

/// Carries out the words over an empty disk that stops at this write, of which a crash leaves what `torn` says; and
/// then again, over what the crash left.
///
/// It shows that the premises of `run` can be met, and that what it promises is enough for the next run: where the
/// words ask for a load and the second one is done, the table is ended and holds all of what the flow means over the
/// files, and nothing else, wherever the first one was stopped.
pub fn run_again_after_a_crash<D: Depot, S: Sink, N: Sink>(
    alloc: Global,
    words: &[String],
    depot: &mut D,
    write: u64,
    torn: Torn,
    out: &mut S,
    notes: &mut N,
) -> Result<(Ending, MemoryDisk), Memory>
    ensures whole { IfOk result (λ left. left.0.reason ≡ None
        → (files : Files) → (D.state depot.old).files ≡ Some files
        → (job : Job) → AsksFor (map string_bytes words.now) files (loads job)
        → (whole : List (List Value)) → IsMeaning job.flow files whole
        → HoldsAll job.text (columns_of job) (has_fixed_root job.flow.nodes) whole (file_of left.1)) }
{
    let mut disk = MemoryDisk::new(alloc, &[])?;
    disk.stop_at_write(write, torn);
    let _ = run(alloc, words, depot, &mut disk, out, notes);
    let mut disk = disk.crash()?;
    let ending = run(alloc, words, depot, &mut disk, out, notes);
    Ok((ending, disk))
}
