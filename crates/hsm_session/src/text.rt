//! Texts in buffers of fixed room.

ghost use Rattle.std.specs.Prelude.{◌≡◌, ◌+◌, ◌*◌, ◌≤◌, ◌++◌, length};
ghost use Rattle.arrayvec.specs.ArrayVec.{array_vec_len};
ghost use Rattle.hsm_nibbles.specs.Characters.{hex_of_bytes};

use arrayvec::ArrayVec;
use hsm_nibbles::hex_character;

/// Appends bytes.
pub fn append<const N: usize>(out: &mut ArrayVec<u8, N>, bytes: &[u8])
    requires { array_vec_len out.old + length bytes.now ≤ N }
    ensures items { out.new.items ≡ out.old.items ++ bytes.now }
    ensures len { array_vec_len out.new ≡ array_vec_len out.old + length bytes.now }
{
    match out.try_extend_from_slice(bytes) {
        Ok(()) => {}
        Err(_) => unreachable!(),
    }
}

/// Appends bytes as upper-case hexadecimal digits.
pub fn append_hex<const N: usize>(out: &mut ArrayVec<u8, N>, bytes: &[u8])
    requires { array_vec_len out.old + 2 * length bytes.now ≤ N }
    ensures items { out.new.items ≡ out.old.items ++ hex_of_bytes bytes.now }
    ensures len { array_vec_len out.new ≡ array_vec_len out.old + 2 * length bytes.now }
{
    'bytes: for byte in bytes {
        append(out, &[hex_character(*byte / 16), hex_character(*byte % 16)]);
    }
}
