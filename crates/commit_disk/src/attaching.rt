// Attaching a table: its head and its gates are read, and none of its rows.
ghost use Rattle.std.specs.Prelude.{◌≡◌, ◌≢◌, ◌≤◌, ◌<◌, ◌+◌, ◌^◌, ◌↔◌, ◌⊎◌, [], ℕ, List, length, take, drop, min, slice_index, IsTrue, IsErrOf, IfOk, IfSome, OnOk, OnErr, true, false};
ghost use Rattle.std.specs.Int.{w32, to_be_bytes, from_be_bytes};
ghost use Rattle.outside.specs.Words.{HasCause, Rose, TellsSize, Elapses, Keeps, Syncs, LeavesNothingNew, Spares};
ghost use Rattle.outside.specs.Words.{OnlyReads};
ghost use Rattle.tuple_schema.specs.Words.{IfFault};
ghost use Rattle.tuple_schema.specs.declared.memory.Stop.TheVariants as stop;
ghost use Rattle.commit_disk.specs.declared.attaching.TableFault.TheVariants as fault;
ghost use Rattle.commit_disk.specs.Words.{LeadsTo, HasName, AttachTells, IsVerdict, IsWithin, IsSound, HasDiskCause};
ghost use Rattle.commit_disk.specs.Words.{HeadTells, IsOnTheWay, PassTells, GateTells, GatesTell, FoundTells};

use crate::block_head::{block_of, number_at, read_block_head};
use crate::gate::{MADE_GATE, OPEN};
use crate::journal::VERSION;
use crate::{Journal, MAX_FLOW_BYTES};
use outside::{Disk, Failed, MAX_SIZE};
use std::alloc::{AllocError, Global};
use tuple_schema::Stop;

/// Why a table can't be attached.
#[derive(Clone, Copy, Debug, PartialEq, Eq, Drop)]
pub enum TableFault {
    /// A call on the disk failed.
    Disk,
    /// The file is made and isn't a table: the first wrong field of the head is there, or the gate of the first wrong
    /// block.
    NotATable { at: u64 },
    /// The file is a table of another flow text.
    WorkflowDiffers,
}

/// What attaching finds.
#[derive(Debug, Drop)]
pub enum Attached {
    /// No table was made in the file, and it holds nothing.
    NotMade,
    /// The journal of the table.
    Made(Journal),
}

impl From<Failed> for TableFault {
    ghost from_gives = { λ _ e. e ≡ fault.Disk };

    fn from(_: Failed) -> Self {
        TableFault::Disk
    }
}

impl From<TableFault> for Stop<TableFault> {
    ghost from_gives = { λ f e. e ≡ stop.Fault f };

    fn from(fault: TableFault) -> Self {
        Stop::Fault(fault)
    }
}

/// Attaches the table of this flow text. Where no memory is found, nothing is done.
///
/// Begins with a sync, so that what it reads is safe from a crash. Each gate and each block's head is read once, and no
/// row.
#[tactic(auto, using(outside::specs::Moments::no_read, outside::specs::Moments::reads_spare))]
pub fn attach<K: Disk>(
    alloc: Global,
    disk: &mut K,
    text: &[u8],
) -> Result<Attached, Stop<TableFault>>
    ensures tells { IsTrue (K.state disk.old).honest → AttachTells result (K.state disk.old).file text.now }
    ensures within { IfOk result (λ found. IsWithin found (K.state disk.new).size) }
    ensures sound { IfOk result IsSound }
    // Nothing is written; and where the bytes were judged, nothing is pending.
    ensures spares { Spares (K.state disk.old) (K.state disk.new) }
    ensures settled { IsVerdict result → Syncs (K.state disk.old) (K.state disk.new) }
    ensures elapses { Elapses (K.state disk.old) (K.state disk.new) }

    ensures memory { IsErrOf result stop.Memory → disk.new ≡ disk.old }
    ensures cause { IfFault result (λ found. found ≡ fault.Disk
        → Rose (K.state disk.old).faults (K.state disk.new).faults) }
{
    let mut block = text_block(alloc)?;
    Ok(settle_and_read(disk, text, &mut block)?)
}

// A block to read the file's flow text over.
fn text_block(alloc: Global) -> Result<Vec<u8>, AllocError>
    ensures { IfOk result (λ block. length block.items ≡ 4096) }
{
    Ok(vec![in alloc; 0u8; 4096]?)
}

// The place of the flow text.
const TEXT_PLACE: u64 = 16;

const NAME: [u8; 7] = *b"WHTABLE";

fn has_name(head: &[u8; 16]) -> bool
    ensures { IsTrue result ↔ HasName head.now }
{
    &head[1..8] == NAME.as_slice()
}

// The length of the flow text in the head of a file, or None where no table is made there.
fn text_len_of(head: &[u8; 16], size: u64) -> Result<Option<u32>, TableFault>
    requires { 17 ≤ size }
    ensures tells { (image : List ℕ) → head.now ≡ take 16 image → size ≡ length image → HeadTells result image }
    ensures fits { IfOk result (λ len. IfSome len (λ n. (17 + n ≤ size) × (n ≤ MAX_FLOW_BYTES))) }
    ensures no_disk { result ≢ Err fault.Disk }
{
    if head[0] != OPEN {
        return Ok(None);
    }
    if !has_name(head) {
        return Err(TableFault::NotATable { at: 1 });
    }
    if number_at(head, 8) != VERSION {
        return Err(TableFault::NotATable { at: 8 });
    }
    let len = number_at(head, 12);
    if len > MAX_FLOW_BYTES || size - 17 < len as u64 {
        return Err(TableFault::NotATable { at: 12 });
    }
    Ok(Some(len))
}

// Goes on behind the block at an open gate, of which the first bytes are given, where so many bytes are left.
fn pass_block(journal: &mut Journal, head: &[u8; 10], room: u64) -> Result<(), TableFault>
    requires { journal.old.gate + room ≤ 2 ^ 48 }
    ensures tells { (image : List ℕ) (text : List ℕ) → (10 ≤ room → head.now ≡ take 10 (drop journal.old.gate image))
        → slice_index image journal.old.gate ≡ 1 → journal.old.gate + room ≡ min (length image) (2 ^ 48)
        → IsOnTheWay journal.old image text → PassTells result journal.new image text }
    ensures onward { OnOk result (journal.old.gate < journal.new.gate) }
    ensures within { OnOk result (journal.new.gate < journal.old.gate + room) }
    ensures no_disk { result ≢ Err fault.Disk }
    ensures sound { journal.new.sound ≡ journal.old.sound }
{
    let at = journal.gate();
    if journal.ended() {
        return Err(TableFault::NotATable { at });
    }
    match block_of(head, room) {
        Some(block) => journal.pass(block),
        None => return Err(TableFault::NotATable { at }),
    }
    Ok(())
}

// Goes on from a gate to the next, where it is open. Answers whether it was.
fn pass_gate<K: Disk>(disk: &mut K, size: u64, journal: &mut Journal) -> Result<bool, TableFault>
    requires within { journal.old.gate < size }
    requires size { size ≤ (K.state disk.old).size }
    ensures tells { IsTrue (K.state disk.old).honest → size ≡ length (K.state disk.old).file
        → (text : List ℕ) → IsOnTheWay journal.old (K.state disk.old).file text
        → GateTells result journal.new (K.state disk.old).file text }
    ensures within { OnOk result (journal.new.gate < size) }
    ensures onward { IfOk result (λ passed. IsTrue passed → journal.old.gate < journal.new.gate) }
    ensures read { OnlyReads (K.state disk.old) (K.state disk.new) }
    ensures cause { HasDiskCause (K.state disk.old).faults (K.state disk.new).faults result }
    ensures sound { journal.new.sound ≡ journal.old.sound }
{
    let gate = journal.gate();
    let head = read_block_head(disk, gate, size)?;
    if head[0] != OPEN {
        return Ok(false);
    }
    match pass_block(journal, &head, size.min(MAX_SIZE) - gate) {
        Ok(()) => Ok(true),
        Err(fault) => Err(fault),
    }
}

// Reads the gates of a table, from the first one on.
fn read_gates<K: Disk>(disk: &mut K, size: u64, first: u64) -> Result<Journal, TableFault>
    requires within { first < size }
    requires room { first < 2 ^ 48 }
    requires size { size ≤ (K.state disk.old).size }
    ensures tells { IsTrue (K.state disk.old).honest → size ≡ length (K.state disk.old).file
        → (text : List ℕ) → first ≡ 16 + length text → LeadsTo first (K.state disk.old).file text []
        → GatesTell result (K.state disk.old).file text }
    ensures within { IfOk result (λ journal. journal.gate < size) }
    ensures sound { IfOk result (λ journal. journal.sound ≡ true) }
    ensures read { OnlyReads (K.state disk.old) (K.state disk.new) }
    ensures cause { HasDiskCause (K.state disk.old).faults (K.state disk.new).faults result }
{
    let mut journal = Journal::new(first);
    while pass_gate(disk, size, &mut journal)? {}
    Ok(journal)
}

// Reads the head. Answers the length of its flow text, or None where no table is made.
fn read_head<K: Disk>(disk: &mut K, size: u64) -> Result<Option<u32>, TableFault>
    requires { size ≤ (K.state disk.old).size }
    ensures tells { IsTrue (K.state disk.old).honest → size ≡ length (K.state disk.old).file
        → HeadTells result (K.state disk.old).file }
    ensures fits { IfOk result (λ len. IfSome len (λ n. (17 + n ≤ size) × (n ≤ MAX_FLOW_BYTES))) }
    ensures read { OnlyReads (K.state disk.old) (K.state disk.new) }
    ensures cause { HasDiskCause (K.state disk.old).faults (K.state disk.new).faults result }
{
    if size < 17 {
        return Ok(None);
    }
    let mut head = [0; 16];
    disk.read_at(MADE_GATE, &mut head)?;
    text_len_of(&head, size)
}

// Whether these bytes stand at that place of the file, which is read over a block of as many.
fn has_bytes<K: Disk>(disk: &mut K, at: u64, bytes: &[u8], block: &mut [u8]) -> Result<bool, Failed>
    requires block { length block.old ≡ length bytes.now }
    requires size { at + length bytes.now ≤ (K.state disk.old).size }
    ensures same { IfOk result (λ same. IsTrue (K.state disk.old).honest
        → IsTrue same ↔ (take (length bytes.now) (drop at (K.state disk.old).file) ≡ bytes.now)) }
    ensures read { OnlyReads (K.state disk.old) (K.state disk.new) }
    ensures cause { HasCause (K.state disk.old).faults (K.state disk.new).faults result }
{
    disk.read_at(at, block)?;
    Ok(&*block == bytes)
}

// Whether the flow text in the head, of so many bytes, is this one. It is compared block by block.
fn has_text<K: Disk>(disk: &mut K, len: u32, text: &[u8], block: &mut [u8]) -> Result<bool, Failed>
    requires block { 0 < length block.old }
    requires size { 16 + len ≤ (K.state disk.old).size }
    ensures same { IfOk result (λ same. IsTrue (K.state disk.old).honest → 16 + len ≤ length (K.state disk.old).file
        → IsTrue same ↔ (take len (drop 16 (K.state disk.old).file) ≡ text.now)) }
    ensures read { OnlyReads (K.state disk.old) (K.state disk.new) }
    ensures cause { HasCause (K.state disk.old).faults (K.state disk.new).faults result }
{
    if len as usize != text.len() {
        return Ok(false);
    }
    let mut done = 0;
    while done < text.len() {
        let count = block.len().min(text.len() - done);
        let piece = &text[done..done + count];
        if !has_bytes(disk, TEXT_PLACE + done as u64, piece, &mut block[..count])? {
            return Ok(false);
        }
        done += count;
    }
    Ok(true)
}

// Makes all that was written safe, and tells the file's length.
fn settled_size<K: Disk>(disk: &mut K) -> Result<u64, Failed>
    ensures told { IfOk result (λ size. TellsSize (K.state disk.new) size) }
    ensures settled { OnOk result (Syncs (K.state disk.old) (K.state disk.new)) }
    ensures barrier { Keeps (K.state disk.old) (K.state disk.new) ⊎ Syncs (K.state disk.old) (K.state disk.new) }
    ensures nothing_new { LeavesNothingNew (K.state disk.old) (K.state disk.new) }
    ensures elapses { Elapses (K.state disk.old) (K.state disk.new) }
    ensures cause { HasCause (K.state disk.old).faults (K.state disk.new).faults result }
{
    disk.sync()?;
    disk.size()
}

// Reads the file's head, gates and flow text, with a block to read the text over.
fn read_table<K: Disk>(
    disk: &mut K,
    size: u64,
    text: &[u8],
    block: &mut [u8],
) -> Result<Attached, TableFault>
    requires block { 0 < length block.old }
    requires size { size ≤ (K.state disk.old).size }
    ensures tells { IsTrue (K.state disk.old).honest → size ≡ length (K.state disk.old).file
        → FoundTells result (K.state disk.old).file text.now }
    ensures within { IfOk result (λ found. IsWithin found size) }
    ensures sound { IfOk result IsSound }
    ensures read { OnlyReads (K.state disk.old) (K.state disk.new) }
    ensures cause { HasDiskCause (K.state disk.old).faults (K.state disk.new).faults result }
{
    let Some(len) = read_head(disk, size)? else {
        return Ok(Attached::NotMade);
    };
    let journal = read_gates(disk, size, TEXT_PLACE + len as u64)?;
    if !has_text(disk, len, text, block)? {
        return Err(TableFault::WorkflowDiffers);
    }
    Ok(Attached::Made(journal))
}

// Makes all that was written safe, and then reads.
fn settle_and_read<K: Disk>(
    disk: &mut K,
    text: &[u8],
    block: &mut [u8],
) -> Result<Attached, TableFault>
    requires { 0 < length block.old }
    ensures tells { IsTrue (K.state disk.old).honest → FoundTells result (K.state disk.old).file text.now }
    ensures within { IfOk result (λ found. IsWithin found (K.state disk.new).size) }
    ensures sound { IfOk result IsSound }
    ensures settled { result ≢ Err fault.Disk → Syncs (K.state disk.old) (K.state disk.new) }
    ensures barrier { Keeps (K.state disk.old) (K.state disk.new) ⊎ Syncs (K.state disk.old) (K.state disk.new) }
    ensures nothing_new { LeavesNothingNew (K.state disk.old) (K.state disk.new) }
    ensures elapses { Elapses (K.state disk.old) (K.state disk.new) }
    ensures cause { HasDiskCause (K.state disk.old).faults (K.state disk.new).faults result }
{
    let size = settled_size(disk)?;
    read_table(disk, size, text, block)
}
