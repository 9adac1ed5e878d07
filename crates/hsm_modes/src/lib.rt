//! Modes of a block cipher over keys of one to three parts: ECB and CBC (FIPS 81, SP 800-38A), with a chaining value that
//! goes on from one block to the next.
#![tactic(auto)]

ghost use Rattle.std.specs.Prelude.{◌≡◌};
ghost use Rattle.hsm_modes.specs.Modes.{State, after, all_made, chained, kept, made, next};

mod each;
pub mod laws;

use each::{decipher_chained, encipher_chained};
use hsm_tdes::{Key, Prepared};
use std::marker::Model;

/// How blocks are chained.
#[derive(Clone, Copy, Debug, PartialEq, Eq)]
pub enum Mode {
    /// Electronic codebook: each block by itself.
    Ecb,
    /// Cipher block chaining: a clear block is exclusive-ored with the secret block before it.
    Cbc,
}

/// What is done to the blocks.
#[derive(Clone, Copy, Debug, PartialEq, Eq)]
pub enum Dir {
    Encrypt,
    Decrypt,
}

/// Blocks that are enciphered or deciphered one after another, under a key whose schedules are made once. Contracts see
/// the key, the mode, the direction and the chaining value.
#[derive(Drop)]
pub struct Cipher {
    key: Prepared,
    mode: Mode,
    dir: Dir,
    chain: u64,
}

impl Model for Cipher {
    ghost use Rattle.hsm_modes.specs.Modes.{State};

    ghost Value = { State };

    ghost view = { λ c. record { key = c.key; mode = c.mode; dir = c.dir; chain = c.chain } };
}

// The block with the chaining value, in CBC.
#[inline(always)]
fn chained_block(mode: Mode, chain: u64, block: u64) -> u64
    ensures { result ≡ chained mode chain block }
{
    match mode {
        Mode::Ecb => block,
        Mode::Cbc => block ^ chain,
    }
}

// The chaining value after a secret block.
#[inline(always)]
fn kept_chain(mode: Mode, chain: u64, secret: u64) -> u64
    ensures { result ≡ kept mode chain secret }
{
    match mode {
        Mode::Ecb => chain,
        Mode::Cbc => secret,
    }
}

impl Cipher {
    /// A cipher that goes on from a chaining value, which ECB doesn't look at. It makes the key's schedules.
    pub fn begin(key: &Key, mode: Mode, dir: Dir, chain: u64) -> Cipher
        ensures { result ≡ record { key = key.now; mode = mode; dir = dir; chain = chain } }
    {
        Cipher {
            key: Prepared::of(key),
            mode,
            dir,
            chain,
        }
    }

    /// What the next block becomes.
    #[inline]
    pub fn block(&mut self, block: u64) -> u64
        ensures block { result ≡ made self.old block }
        ensures state { self.new ≡ next self.old block }
    {
        match self.dir {
            Dir::Encrypt => {
                let secret = self
                    .key
                    .encipher(chained_block(self.mode, self.chain, block));
                self.chain = kept_chain(self.mode, self.chain, secret);
                secret
            }
            Dir::Decrypt => {
                let clear = chained_block(self.mode, self.chain, self.key.decipher(block));
                self.chain = kept_chain(self.mode, self.chain, block);
                clear
            }
        }
    }

    /// What the next blocks become, in their places, as [`Cipher::block`] of each in turn would say. Where none waits for
    /// another they go two at a time: in ECB, and in CBC where they are deciphered.
    pub fn blocks(&mut self, blocks: &mut [u64])
        ensures blocks { blocks.new ≡ all_made self.old blocks.old }
        ensures state { self.new ≡ after self.old blocks.old }
    {
        match (self.mode, self.dir) {
            (Mode::Ecb, Dir::Encrypt) => self.key.encipher_each(blocks),
            (Mode::Ecb, Dir::Decrypt) => self.key.decipher_each(blocks),
            (Mode::Cbc, Dir::Encrypt) => {
                self.chain = encipher_chained(&self.key, self.chain, blocks);
            }
            (Mode::Cbc, Dir::Decrypt) => {
                self.chain = decipher_chained(&self.key, self.chain, blocks);
            }
        }
    }

    /// The chaining value after the blocks so far: in CBC the last secret block, or the starting value where there is
    /// none; in ECB the starting value.
    pub fn chain(&self) -> u64
        ensures { result ≡ self.now.chain }
    {
        self.chain
    }
}
