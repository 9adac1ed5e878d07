// The part of a name that a bench keeps.
ghost use Rattle.std.specs.Prelude.{◌≡◌};
ghost use Rattle.hsm_io.specs.Files.{kept_name};

use arrayvec::ArrayVec;

// How many bytes of a name a bench keeps.
const KEPT: usize = 4_096;

/// Puts the first 4,096 bytes of a name in the place of those that were kept.
pub fn keep_name(kept: &mut ArrayVec<u8, 4096>, name: &[u8])
    ensures { kept.new.items ≡ kept_name name.now }
{
    kept.clear();
    match kept.try_extend_from_slice(&name[..name.len().min(KEPT)]) {
        Ok(()) => {}
        Err(_) => unreachable!(),
    }
}
