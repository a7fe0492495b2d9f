//! Reading a whole file.
ghost use Rattle.std.specs.Prelude.{◌≡◌, ◌+◌, ◌≤◌, ◌<◌, ◌⊎◌, ℕ, List, Some, length, IsTrue, IfOk, IsErrOf, IsSomeAnd};
ghost use Rattle.outer_io.specs.Faults.{Rose};
ghost use Rattle.outer_io.specs.NamedFiles.{SameFiles};

use crate::fault::{LoadFault, Purpose};
use crate::files::{Files, NAME_LIMIT};
use std::alloc::Global;

/// How many bytes the first read asks for, so that a small file clears and touches little memory.
const FIRST: usize = 4096;

/// How many bytes a read asks for once that many are there.
const CHUNK: usize = 65_536;

/// The whole content of a file of at most `most` bytes.
///
/// It reads 4 KiB and then chunks of 64 KiB, and stops at the end, or after `most + 1` bytes. A file of less than 4 KiB takes
/// no larger buffer. The cost is linear in the bytes read.
pub fn load<F: Files>(
    alloc: Global,
    files: &mut F,
    name: &str,
    most: u64,
) -> Result<Vec<u8>, LoadFault>
    requires { length name.now ≤ NAME_LIMIT }

    ensures whole { IfOk result (λ bytes. IsTrue (F.tells files.old)
        → F.content files.old name.now ≡ Some bytes.items) }
    ensures short { IfOk result (λ bytes. length bytes.items ≤ most) }
    ensures too_long { IsErrOf result LoadFault.TooLong → IsTrue (F.tells files.old)
        → IsSomeAnd (F.content files.old name.now) (λ bytes. most < length bytes) }

    ensures rose { IsErrOf result LoadFault.Failed
        → Rose (F.faults files.old) (F.faults files.new) }
    ensures fault_at { IsErrOf result LoadFault.Failed
        → F.fault_at files.new ≡ Some (name.now, Purpose.Reading) }
    ensures quiet { IsErrOf result LoadFault.Failed ⊎ (F.faults files.new ≡ F.faults files.old) }
    ensures later { F.faults files.old ≤ F.faults files.new }

    ensures same { SameFiles (F.content files.old) (F.content files.new) }
    ensures tells { F.tells files.new ≡ F.tells files.old }
    ensures begun { F.begun files.new ≡ F.begun files.old }
{
    files.start(name)?;
    let mut bytes = Vec::new(alloc);
    let mut buffer = Vec::new(alloc);
    while bytes.len() as u64 <= most {
        buffer.resize(room_for(bytes.len() as u64, most), 0)?;
        let count = files.next(&mut buffer)?;
        if count == 0 {
            return Ok(bytes);
        }
        bytes.extend_from_slice(&buffer[..count])?;
    }
    Err(LoadFault::TooLong)
}

/// How many bytes to ask for when `taken` of at most `most` are there: one byte more than may be taken at most.
fn room_for(taken: u64, most: u64) -> usize
    requires { taken ≤ most }
    ensures some { 0 < result }
    ensures small { taken < FIRST → result ≤ FIRST }
    ensures chunk { result ≤ CHUNK }
    ensures near { taken + result ≤ most + 1 }
{
    let chunk = if taken < FIRST as u64 { FIRST } else { CHUNK };
    (most - taken).min(chunk as u64 - 1) as usize + 1
}
