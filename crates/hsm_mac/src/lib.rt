//! MACs of ISO 9797-1, algorithms 1 and 3, whole and in parts.
#![tactic(auto)]

ghost use Rattle.std.specs.Prelude.{◌≡◌, IfOk, IsTrue, OnErr, OnOk, is_err};
ghost use Rattle.hsm_mac.specs.Macs.{blocks_of, fills_blocks, mac, padded, takes_key};
ghost use Rattle.hsm_mac.specs.States.{State, advanced, refuses_last, refuses_part, refuses_whole};

mod chaining;
pub mod laws;

use chaining::{chain_blocks, chain_padded, close};
use hsm_tdes::{Key, Prepared};
use std::marker::Model;
use thiserror::Error;

/// A MAC algorithm of ISO 9797-1.
#[derive(Clone, Copy, Debug, PartialEq, Eq)]
pub enum Alg {
    /// MAC algorithm 1: the blocks are enciphered under the whole key, of one to three parts.
    One,
    /// MAC algorithm 3: the blocks are enciphered under part 1 of a key of two parts, and the last result is
    /// deciphered under part 2 and enciphered under part 1.
    Three,
}

/// How data is padded to whole blocks of 8 bytes.
#[derive(Clone, Copy, Debug, PartialEq, Eq)]
pub enum Pad {
    /// Padding 0: nothing is added.
    Bare,
    /// Padding method 1 of ISO 9797-1: zero bytes, as few as possible.
    Zeros,
    /// Padding method 2: the byte 80, then zero bytes as in method 1. A block is added where the data is whole.
    Bit,
    /// Padding method 3: a block with the length of the data in bits, then the data padded as in method 1.
    Length,
}

/// Data is refused: it is empty, or it fills no whole blocks of 8 bytes where nothing pads it, or it is the last part of
/// a message and its padding is `Length`. Each call says which of these it refuses.
#[derive(Clone, Copy, Debug, PartialEq, Eq, Error)]
#[error("the data is empty or cannot be padded to whole blocks")]
pub struct Uneven;

/// A MAC that is made in parts. Contracts see the key, the algorithm and the chaining value.
#[derive(Drop)]
pub struct Mac {
    key: Prepared,
    alg: Alg,
    chain: u64,
}

impl Model for Mac {
    ghost use Rattle.std.specs.Prelude.{◌≡◌, true};
    ghost use Rattle.hsm_mac.specs.Macs.{takes_key};
    ghost use Rattle.hsm_mac.specs.States.{State};

    ghost Value = { State };

    ghost view = { λ m. record { key = m.key; alg = m.alg; chain = m.chain } };

    ghost invariant = { λ m. takes_key m.alg m.key ≡ true };
}

// Whether the bytes fill blocks of 8.
fn fills_blocks(bytes: &[u8]) -> bool
    ensures { result ≡ fills_blocks bytes.now }
{
    bytes.len() % 8 == 0
}

impl Mac {
    /// A MAC that goes on from a chaining value, which is 0 at the beginning of a message. It makes the key's schedules.
    pub fn begin(key: &Key, alg: Alg, chain: u64) -> Mac
        requires { IsTrue (takes_key alg key.now) }
        ensures { result ≡ record { key = key.now; alg = alg; chain = chain } }
    {
        Mac {
            key: Prepared::of(key),
            alg,
            chain,
        }
    }

    /// Takes the next part of the message. `Uneven` exactly where it is empty or no multiple of 8 bytes.
    pub fn update(&mut self, part: &[u8]) -> Result<(), Uneven>
        ensures refused { is_err result ≡ refuses_part part.now }
        ensures state { OnOk result (self.new ≡ advanced self.old part.now) }
        ensures kept { OnErr result (self.new ≡ self.old) }
    {
        if part.is_empty() || !fills_blocks(part) {
            return Err(Uneven);
        }
        self.chain = chain_blocks(&self.key, self.alg, self.chain, part);
        Ok(())
    }

    /// The chaining value after the parts so far.
    pub fn chain(&self) -> u64
        ensures { result ≡ self.now.chain }
    {
        self.chain
    }

    /// The MAC whose last part this is; the padding is that of the last part. `Uneven` exactly where it is empty, or
    /// the padding is `Length`, which wants the length of the message before its first part, or the padding is `Bare`
    /// and it is no multiple of 8 bytes.
    pub fn end(&self, pad: Pad, last: &[u8]) -> Result<u64, Uneven>
        ensures refused { is_err result ≡ refuses_last pad last.now }
        ensures value { IfOk result (λ value.
            value ≡ mac self.now.key self.now.alg self.now.chain (blocks_of (padded pad last.now))) }
    {
        if last.is_empty() || pad == Pad::Length || pad == Pad::Bare && !fills_blocks(last) {
            return Err(Uneven);
        }
        let value = chain_padded(&self.key, self.alg, self.chain, pad, last);
        Ok(close(&self.key, self.alg, value))
    }
}

/// The MAC of a whole message. `Uneven` exactly where it is empty, or the padding is `Bare` and it is no multiple of
/// 8 bytes.
pub fn whole(key: &Key, alg: Alg, pad: Pad, message: &[u8]) -> Result<u64, Uneven>
    requires { IsTrue (takes_key alg key.now) }
    ensures refused { is_err result ≡ refuses_whole pad message.now }
    ensures value { IfOk result (λ value. value ≡ mac key.now alg 0 (blocks_of (padded pad message.now))) }
{
    if message.is_empty() || pad == Pad::Bare && !fills_blocks(message) {
        return Err(Uneven);
    }
    let key = Prepared::of(key);
    Ok(close(&key, alg, chain_padded(&key, alg, 0, pad, message)))
}
