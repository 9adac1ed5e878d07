//! Words and keys that are drawn at an entry.
ghost use Rattle.std.specs.Prelude.{◌≡◌, ◌+◌, ◌-◌, ◌^◌, ◌<◌, ◌≤◌, ◌++◌, IsTrue, length, map, take, replicate};
ghost use Rattle.hsm_pinblock.specs.Blocks.{permits_fill};
ghost use Rattle.hsm_answers.specs.Draws.{word, drawn_part, unlike, turned, drawn_key, drawn_digits, fill_nibble, drawn_fill};

use hsm_parity::adjusted_byte;
use hsm_pinblock::Format;
use hsm_rows::Module;
use hsm_tdes::Key;
use hsm_types::Pin;
use rand_chacha::ChaCha20Rng;
use rand_core::SeedableRng;
use rand_core::utils::NextWord;

/// The random word at a place: the ChaCha20 word of the module's seed, stream 0.
#[tactic(auto, unfolding(crate::specs::Draws::word))]
pub fn word(module: &Module, place: u64) -> u32
    ensures { result ≡ word «module».now place }
{
    let mut generator = ChaCha20Rng::from_seed(module.seed);
    generator.set_word_pos(place as u128);
    generator.next_word()
}

// The key part whose words are at a place and the next one.
fn part_at(module: &Module, place: u64) -> [u8; 8]
    requires { place < 2 ^ 63 + 8 }
    ensures { result ≡ drawn_part «module».now place }
{
    let [a, b, c, d] = word(module, place).to_le_bytes();
    let [e, f, g, h] = word(module, place + 1).to_le_bytes();
    [
        adjusted_byte(a),
        adjusted_byte(b),
        adjusted_byte(c),
        adjusted_byte(d),
        adjusted_byte(e),
        adjusted_byte(f),
        adjusted_byte(g),
        adjusted_byte(h),
    ]
}

// The part with F0 exclusive-ored on each byte.
fn turned(part: [u8; 8]) -> [u8; 8]
    ensures { result ≡ map turned part }
{
    let [a, b, c, d, e, f, g, h] = part;
    [
        a ^ 0xF0,
        b ^ 0xF0,
        c ^ 0xF0,
        d ^ 0xF0,
        e ^ 0xF0,
        f ^ 0xF0,
        g ^ 0xF0,
        h ^ 0xF0,
    ]
}

// The part, changed where it equals the part before it.
fn unlike(before: &[u8], part: [u8; 8]) -> [u8; 8]
    ensures { result ≡ unlike before.now part }
{
    if part.as_slice() == before {
        turned(part)
    } else {
        part
    }
}

/// A key of one to three parts, whose words begin at the place: two words a part, adjusted to odd parity. A part equal
/// to the part before it is exclusive-ored with F0 in each byte.
#[tactic(auto, using(crate::proofs::Lengths::drawn_length), unfolding(crate::specs::Draws::drawn_key))]
pub fn draw_key(module: &Module, place: u64, parts: usize) -> Key
    requires some { 1 ≤ parts }
    requires most { parts ≤ 3 }
    requires place { place < 2 ^ 63 }
    ensures key { result ≡ drawn_key «module».now place parts }
    ensures parts { length result ≡ parts }
{
    let a = unlike(b"", part_at(module, place));
    if parts == 1 {
        return Key::one(&a);
    }
    let b = unlike(&a, part_at(module, place + 2));
    if parts == 2 {
        return Key::two(&a, &b);
    }
    let c = unlike(&b, part_at(module, place + 2 + 2));
    Key::three(&a, &b, &c)
}

// Digits, each a word modulo 10, from the place on; then zeros.
fn digits_from(module: &Module, place: u64, count: usize) -> [u8; 12]
    requires most { count ≤ 12 }
    requires place { place < 2 ^ 63 }
    ensures { take count result ≡ drawn_digits «module».now place count }
{
    let mut out = [0; 12];
    for i in 0..count {
        out[i] = (word(module, place + i as u64) % 10) as u8;
    }
    out
}

/// A PIN of so many digits, whose words begin at the place: each digit is one word modulo 10.
pub fn draw_pin(module: &Module, place: u64, count: usize) -> Pin
    requires least { 4 ≤ count }
    requires most { count ≤ 12 }
    requires place { place < 2 ^ 63 }
    ensures { result ≡ drawn_digits «module».now place count }
{
    match Pin::of(&digits_from(module, place, count)[..count]) {
        Some(pin) => pin,
        None => unreachable!(),
    }
}

// The fill nibble of a word.
fn fill_nibble(format: Format, word: u32) -> u8
    ensures { result ≡ fill_nibble format word }
{
    match format {
        Format::F01 | Format::F03 => 15,
        Format::F05 => (word % 16) as u8,
        Format::F47 => 10 + (word % 6) as u8,
    }
}

/// The fill of a block in the format, whose words begin at the place: so many nibbles, then 15 to the end.
pub fn draw_fill(module: &Module, format: Format, place: u64, count: usize) -> [u8; 14]
    requires most { count ≤ 14 }
    requires place { place < 2 ^ 63 }
    ensures fill { result ≡ drawn_fill «module».now format place count ++ replicate (14 - count) 15 }
    ensures permitted { IsTrue (permits_fill format result) }
{
    let mut out = [15; 14];
    for i in 0..count {
        out[i] = fill_nibble(format, word(module, place + i as u64));
    }
    out
}
