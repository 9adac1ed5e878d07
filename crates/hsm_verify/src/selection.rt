//! The decimal digits that a block gives.
ghost use Rattle.std.specs.Prelude.{◌≡◌, ◌≤◌, ◌-◌, ◌++◌, filter, length, map, replicate, take, IsTrue};
ghost use Rattle.std.specs.List.{list_all};
ghost use Rattle.hsm_types.specs.Pins.{is_decimal};
ghost use Rattle.hsm_verify.specs.Values.{is_letter, selected};

use hsm_nibbles::nibbles_of;

// Writes the decimal nibbles to the front, and answers how many they are.
fn take_decimals(nibbles: &[u8; 16], out: &mut [u8; 16]) -> usize
    ensures count { result ≡ length (filter is_decimal nibbles.now) }
    ensures front { take result out.new ≡ filter is_decimal nibbles.now }
{
    let mut count = 0;
    for i in 0..16 {
        if nibbles[i] < 10 {
            out[count] = nibbles[i];
            count += 1;
        }
    }
    count
}

// Writes the letters less 10 after the decimal nibbles.
fn take_letters(nibbles: &[u8; 16], decimals: usize, out: &mut [u8; 16])
    requires count { decimals ≡ length (filter is_decimal nibbles.now) }
    requires front { take decimals out.old ≡ filter is_decimal nibbles.now }
    ensures { out.new ≡ filter is_decimal nibbles.now ++ map (λ letter. letter - 10) (filter is_letter nibbles.now) }
{
    let mut count = decimals;
    for i in 0..16 {
        if nibbles[i] >= 10 {
            out[count] = nibbles[i] - 10;
            count += 1;
        }
    }
}

// All sixteen selected digits.
pub(crate) fn select_all(block: u64) -> [u8; 16]
    ensures value { result ≡ selected block }
    ensures decimal { IsTrue (list_all is_decimal result) }
{
    let nibbles = nibbles_of(block);
    let mut out = [0; 16];
    let decimals = take_decimals(&nibbles, &mut out);
    take_letters(&nibbles, decimals, &mut out);
    out
}

/// The first `count` digits that the block gives, then zeros: the block's decimal nibbles from the left, and after
/// them its letters from the left, each less 10.
pub fn select(block: u64, count: usize) -> [u8; 16]
    requires { count ≤ 16 }
    ensures { result ≡ take count (selected block) ++ replicate (16 - count) 0 }
{
    let all = select_all(block);
    let mut out = [0; 16];
    out[..count].copy_from_slice(&all[..count]);
    out
}
