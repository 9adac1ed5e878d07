//! CBC over lists of blocks, in place.
ghost use Rattle.std.specs.Prelude.{◌≡◌};
ghost use Rattle.hsm_modes.specs.declared.Dir.TheVariants.{Decrypt, Encrypt};
ghost use Rattle.hsm_modes.specs.Modes.{after, all_made, in_cbc};

use hsm_tdes::{Prepared, decipher_two};

// Enciphers blocks in CBC, each chained to the secret block before it, and gives the last one.
pub(crate) fn encipher_chained(key: &Prepared, chain: u64, blocks: &mut [u64]) -> u64
    ensures blocks { blocks.new ≡ all_made (in_cbc key.now Encrypt chain) blocks.old }
    ensures chain { result ≡ (after (in_cbc key.now Encrypt chain) blocks.old).chain }
{
    let mut before = chain;
    for i in 0..blocks.len() {
        before = key.encipher(blocks[i] ^ before);
        blocks[i] = before;
    }
    before
}

// Deciphers blocks in CBC, two at a time, since no clear block waits for another, and gives the last secret one.
pub(crate) fn decipher_chained(key: &Prepared, chain: u64, blocks: &mut [u64]) -> u64
    ensures blocks { blocks.new ≡ all_made (in_cbc key.now Decrypt chain) blocks.old }
    ensures chain { result ≡ (after (in_cbc key.now Decrypt chain) blocks.old).chain }
{
    let pairs = blocks.len() / 2;
    let mut before = chain;
    for i in 0..pairs {
        let (first, second) = (blocks[2 * i], blocks[2 * i + 1]);
        let (x, y) = decipher_two(key, key, (first, second));
        blocks[2 * i] = x ^ before;
        blocks[2 * i + 1] = y ^ first;
        before = second;
    }
    if 2 * pairs < blocks.len() {
        let last = blocks[2 * pairs];
        blocks[2 * pairs] = key.decipher(last) ^ before;
        return last;
    }
    before
}
