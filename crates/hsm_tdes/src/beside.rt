//! Two blocks side by side, each under a key of its own, and lists of blocks.
ghost use Rattle.std.specs.Prelude.{◌≡◌, map};
ghost use Rattle.hsm_tdes.specs.Tdes.{enciphered, deciphered};

use crate::Prepared;
use hsm_des::Two;

/// Two blocks, each enciphered under its key. They go side by side where both
/// keys have one part, or both two or three.
pub fn encipher_two(first: &Prepared, second: &Prepared, blocks: (u64, u64)) -> (u64, u64)
    ensures first { result.0 ≡ enciphered first.now blocks.0 }
    ensures second { result.1 ≡ enciphered second.now blocks.1 }
{
    let mut two = Two::new(blocks.0, blocks.1);
    if let (Some(a), Some(b)) = (first.single(), second.single()) {
        two.encrypt(a, b);
        return two.blocks();
    }
    let (Some(a), Some(b)) = (first.steps(), second.steps()) else {
        return (first.encipher(blocks.0), second.encipher(blocks.1));
    };
    two.encrypt(a.0, b.0);
    two.decrypt(a.1, b.1);
    two.encrypt(a.2, b.2);
    two.blocks()
}

/// Two blocks, each deciphered under its key. They go side by side where both
/// keys have one part, or both two or three.
pub fn decipher_two(first: &Prepared, second: &Prepared, blocks: (u64, u64)) -> (u64, u64)
    ensures first { result.0 ≡ deciphered first.now blocks.0 }
    ensures second { result.1 ≡ deciphered second.now blocks.1 }
{
    let mut two = Two::new(blocks.0, blocks.1);
    if let (Some(a), Some(b)) = (first.single(), second.single()) {
        two.decrypt(a, b);
        return two.blocks();
    }
    let (Some(a), Some(b)) = (first.steps(), second.steps()) else {
        return (first.decipher(blocks.0), second.decipher(blocks.1));
    };
    two.decrypt(a.2, b.2);
    two.encrypt(a.1, b.1);
    two.decrypt(a.0, b.0);
    two.blocks()
}

impl Prepared {
    /// Enciphers each of the blocks, two at a time.
    pub fn encipher_each(&self, blocks: &mut [u64])
        ensures { blocks.new ≡ map (enciphered self.now) blocks.old }
    {
        let pairs = blocks.len() / 2;
        for i in 0..pairs {
            let (x, y) = encipher_two(self, self, (blocks[2 * i], blocks[2 * i + 1]));
            blocks[2 * i] = x;
            blocks[2 * i + 1] = y;
        }
        if 2 * pairs < blocks.len() {
            blocks[2 * pairs] = self.encipher(blocks[2 * pairs]);
        }
    }

    /// Deciphers each of the blocks, two at a time.
    pub fn decipher_each(&self, blocks: &mut [u64])
        ensures { blocks.new ≡ map (deciphered self.now) blocks.old }
    {
        let pairs = blocks.len() / 2;
        for i in 0..pairs {
            let (x, y) = decipher_two(self, self, (blocks[2 * i], blocks[2 * i + 1]));
            blocks[2 * i] = x;
            blocks[2 * i + 1] = y;
        }
        if 2 * pairs < blocks.len() {
            blocks[2 * pairs] = self.decipher(blocks[2 * pairs]);
        }
    }
}
