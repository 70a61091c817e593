//! A numbered file's header, read from its disk.

ghost use Rattle.std.specs.Prelude.{◌≡◌, IsTrue, IfOk, IfErr};
ghost use Rattle.mt_log_generations.specs.{Calls.{ReadHeader, IsNotRead}, Reading.{IsReadAfterGate, IsFaultAfterGate, CountsReads}};

use crate::fault::HeaderFault;
use crate::header::{HEADER_AT, HEADER_BYTES, Header, header_of};
use mt_disk::Disk;
use mt_gates::{OPEN, SHUT, close_gate, synced_gate};

/// What a numbered file has, once it is synced: the header of its log, or none for an empty file and for one whose outer
/// gate isn't open. A gate that a crash left torn is closed.
pub fn read_header<D: Disk>(disk: &mut D) -> Result<Option<Header>, HeaderFault>
    ensures ok { IfOk result (ReadHeader D.is_honest D.state D.failures disk.old disk.new) }
    ensures err { IfErr result (IsNotRead D.is_honest D.state D.failures disk.old disk.new) }
{
    let (len, gate) = synced_gate(disk)?;
    let Some(gate) = gate else {
        return Ok(None);
    };
    if gate == OPEN {
        return read_open(disk, len);
    }
    if gate == SHUT {
        return Ok(None);
    }
    close_gate(disk)?;
    Ok(None)
}

// The header after an open gate, from a file of this length.
fn read_open<D: Disk>(disk: &mut D, len: usize) -> Result<Option<Header>, HeaderFault>
    ensures ok { IfOk result (IsReadAfterGate D.is_honest D.state disk.old len) }
    ensures err { IfErr result (IsFaultAfterGate D.is_honest D.state disk.old len) }
    ensures same { IsTrue (D.is_honest disk.old) → D.state disk.new ≡ D.state disk.old }
    ensures honest { D.is_honest disk.new ≡ D.is_honest disk.old }
    ensures count { CountsReads result (D.failures disk.old) (D.failures disk.new) }
{
    if len < HEADER_AT + HEADER_BYTES {
        return Err(HeaderFault::Bad(0));
    }
    let mut bytes = [0; HEADER_BYTES];
    disk.read(HEADER_AT, &mut bytes)?;
    let header = header_of(&bytes)?;
    Ok(Some(header))
}
