//! Reads what is left of a source.

ghost use Rattle.std.specs.Prelude.{◌≡◌, ◌≤◌, ℕ, List, Some, IsErrOf, OnOk};
ghost use Rattle.hsm_io.specs.Stream.{Stream, Passes};
ghost use Rattle.hsm_io.specs.Outside.{Rose};
ghost use Rattle.hsm_program.specs.Files.{ReadsFile};

use hsm_io::{Got, Source};
use std::alloc::Global;

/// The most bytes of a file.
pub const FILE_LIMIT: usize = 16_777_216;

/// Why a file was not read.
#[derive(Clone, Copy, Debug, PartialEq, Eq)]
pub enum ReadingFault {
    /// Want of memory.
    Memory,
    /// A read failed.
    Failed,
    /// More than `FILE_LIMIT` bytes are left.
    Long,
}

/// What is left of a source, where that is no more than `FILE_LIMIT` bytes.
pub fn read_all<F: Source>(alloc: Global, source: &mut F) -> Result<Vec<u8>, ReadingFault>
    ensures told { (s : Stream) → F.stream source.old ≡ Some s → ReadsFile s.left result }
    ensures failed { IsErrOf result ReadingFault.Failed → Rose (F.faults source.old) (F.faults source.new) }
    ensures kept { OnOk result (F.faults source.new ≡ F.faults source.old) }
    ensures later { F.faults source.old ≤ F.faults source.new }
    ensures passed { (s : Stream) → F.stream source.old ≡ Some s → (t : Stream) × (F.stream source.new ≡ Some t) × (part : List ℕ) × Passes s t part }
{
    let mut bytes = Vec::new(alloc);
    let mut room = [0u8; 4096];
    'reads: while bytes.len() <= FILE_LIMIT {
        match source.read(&mut room) {
            Got::Bytes(count) => {
                if bytes.extend_from_slice(&room[..count]).is_err() {
                    return Err(ReadingFault::Memory);
                }
            }
            Got::End => return Ok(bytes),
            Got::Failed => return Err(ReadingFault::Failed),
        }
    }
    Err(ReadingFault::Long)
}
