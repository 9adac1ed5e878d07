//! Arrays of bits, the first one the most significant.

ghost use Rattle.std.specs.Prelude.{◌≡◌, ◌+◌, ◌<◌, ◌≤◌, IsTrue, length};
ghost use Rattle.hsm_des.specs.Bits.{bits, lists_positions, number, pick, xor_bits};

pub fn bits_of<const N: usize>(number: u64) -> [bool; N]
    requires { N ≤ 64 }
    ensures { result ≡ bits N number }
{
    let mut out = [false; N];
    for i in 0..N {
        out[i] = number >> (N - 1 - i) & 1 == 1;
    }
    out
}

pub fn number_of(x: &[bool]) -> u64
    requires { length x.now ≤ 64 }
    ensures { result ≡ number x.now }
{
    let mut sum = 0;
    for bit in x {
        sum = sum << 1 | u64::from(*bit);
    }
    sum
}

pub fn pick<const N: usize, const M: usize>(table: &[u8; N], x: &[bool; M]) -> [bool; N]
    requires { IsTrue (lists_positions M table.now) }
    ensures { result ≡ pick table.now x.now }
{
    let mut out = [false; N];
    for i in 0..N {
        out[i] = x[table[i] as usize - 1];
    }
    out
}

pub fn xor<const N: usize>(x: &[bool; N], y: &[bool; N]) -> [bool; N]
    ensures { result ≡ xor_bits x.now y.now }
{
    let mut out = [false; N];
    for i in 0..N {
        out[i] = x[i] ^ y[i];
    }
    out
}
