// The protocol of gates.
ghost use Rattle.std.specs.Prelude.{◌≡◌, ◌≤◌, ◌<◌, ◌+◌, ◌^◌, ◌↔◌, length, IsTrue, IfOk, OnOk};
ghost use Rattle.outside.specs.Words.{HasCause, Torn, Elapses, Keeps, Writes, IsSettled, PassesOver};
ghost use Rattle.commit_disk.specs.Words.{IsNotMade, HasClosedGate, HasClosedGateAt, KeepsClosed, OpensGate};

use outside::{Disk, Failed};

/// A closed gate. On disk any byte but an open gate is closed.
pub const CLOSED: u8 = 0;

/// An open gate.
pub const OPEN: u8 = 1;

/// The place of the made gate.
pub const MADE_GATE: u64 = 0;

// Writes bytes, and makes them safe from a crash.
fn write_safely<K: Disk>(disk: &mut K, at: u64, bytes: &[u8]) -> Result<(), Failed>
    requires place { at ≤ (K.state disk.old).size }
    requires room { at + length bytes.now ≤ 2 ^ 48 }
    ensures wrote { OnOk result (Writes at bytes.now (K.state disk.old) (K.state disk.new)) }
    ensures settled { OnOk result (IsTrue (K.state disk.old).honest → IsSettled (K.state disk.new)) }
    ensures passes { IsTrue (K.state disk.old).honest → IsSettled (K.state disk.old)
        → PassesOver (λ image. image ≡ (K.state disk.old).file) (Torn at (length bytes.now) (K.state disk.old).file)
        (K.state disk.old) (K.state disk.new) }
    ensures elapses { Elapses (K.state disk.old) (K.state disk.new) }
    ensures cause { HasCause (K.state disk.old).faults (K.state disk.new).faults result }
{
    disk.write_at(at, bytes)?;
    disk.sync()
}

// Writes what stands behind a closed gate, up to a next closed gate, and then opens the gate.
pub fn open_gate<K: Disk>(disk: &mut K, gate: u64, behind: &[u8]) -> Result<(), Failed>
    requires place { gate < (K.state disk.old).size }
    requires room { gate + 1 + length behind.now ≤ 2 ^ 48 }
    ensures opened { OnOk result (IsTrue (K.state disk.old).honest
        → OpensGate gate behind.now (K.state disk.old).file (K.state disk.new).file) }
    ensures size { OnOk result (gate + length behind.now < (K.state disk.new).size) }
    ensures settled { OnOk result (IsTrue (K.state disk.old).honest → IsSettled (K.state disk.new)) }
    ensures passes { IsTrue (K.state disk.old).honest → IsSettled (K.state disk.old)
        → HasClosedGateAt gate (K.state disk.old).file
        → PassesOver (KeepsClosed gate (K.state disk.old).file) (OpensGate gate behind.now (K.state disk.old).file)
        (K.state disk.old) (K.state disk.new) }
    ensures elapses { Elapses (K.state disk.old) (K.state disk.new) }
    ensures cause { HasCause (K.state disk.old).faults (K.state disk.new).faults result }
{
    // The block has to be on the disk before its gate is opened.
    write_safely(disk, gate + 1, behind)?;
    write_safely(disk, gate, &[OPEN])
}

// Closes the made gate, where the file has none or has it open.
pub fn close_made_gate<K: Disk>(disk: &mut K) -> Result<(), Failed>
    ensures closed { OnOk result (IsTrue (K.state disk.old).honest → HasClosedGate (K.state disk.new).file) }
    ensures size { OnOk result (0 < (K.state disk.new).size) }
    ensures settled { OnOk result (IsTrue (K.state disk.old).honest → IsSettled (K.state disk.old)
        → IsSettled (K.state disk.new)) }
    ensures passes { IsTrue (K.state disk.old).honest → IsSettled (K.state disk.old) → IsNotMade (K.state disk.old).file
        → PassesOver IsNotMade (λ _. ⊥) (K.state disk.old) (K.state disk.new) }
    ensures elapses { Elapses (K.state disk.old) (K.state disk.new) }
    ensures cause { HasCause (K.state disk.old).faults (K.state disk.new).faults result }
{
    if is_made_gate_closed(disk)? {
        return Ok(());
    }
    write_safely(disk, MADE_GATE, &[CLOSED])
}

fn is_made_gate_closed<K: Disk>(disk: &mut K) -> Result<bool, Failed>
    ensures closed { IfOk result (λ closed. IsTrue (K.state disk.old).honest
        → IsTrue closed ↔ HasClosedGate (K.state disk.old).file) }
    ensures size { IfOk result (λ closed. IsTrue closed → 0 < (K.state disk.new).size) }
    ensures keeps { Keeps (K.state disk.old) (K.state disk.new) }
    ensures passes { IsTrue (K.state disk.old).honest → IsSettled (K.state disk.old)
        → PassesOver (λ image. image ≡ (K.state disk.old).file) (λ _. ⊥) (K.state disk.old) (K.state disk.new) }
    ensures elapses { Elapses (K.state disk.old) (K.state disk.new) }
    ensures cause { HasCause (K.state disk.old).faults (K.state disk.new).faults result }
{
    if disk.size()? == 0 {
        return Ok(false);
    }
    let mut gate = [CLOSED];
    disk.read_at(MADE_GATE, &mut gate)?;
    Ok(gate[0] != OPEN)
}
