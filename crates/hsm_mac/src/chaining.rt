//! Chaining of blocks: the iterated encipherment of ISO 9797-1.
ghost use Rattle.std.specs.Prelude.{◌≡◌, ◌≤◌, ◌-◌, [], ◌∷◌, ◌++◌, IsTrue, length, replicate};
ghost use Rattle.hsm_tdes.specs.Tdes.{enciphered};
ghost use Rattle.hsm_mac.specs.Macs.{block_key, block_of_bytes, blocks_of, chained, closed, padded, takes_key, zeros_added};

use crate::{Alg, Pad};
use hsm_tdes::Prepared;

fn block_of_bytes(bytes: [u8; 8]) -> u64
    ensures { result ≡ block_of_bytes bytes }
{
    u64::from_be_bytes(bytes)
}

// The block enciphered under the key of the blocks.
#[inline(always)]
fn encipher_block(key: &Prepared, alg: Alg, block: u64) -> u64
    requires { IsTrue (takes_key alg key.now) }
    ensures { result ≡ enciphered (block_key alg key.now) block }
{
    match alg {
        Alg::One => key.encipher(block),
        Alg::Three => key.encipher_first(block),
    }
}

// The MAC from the last chaining value.
pub(crate) fn close(key: &Prepared, alg: Alg, chain: u64) -> u64
    requires { IsTrue (takes_key alg key.now) }
    ensures { result ≡ closed alg key.now chain }
{
    match alg {
        Alg::One => chain,
        Alg::Three => key.decipher_second_encipher_first(chain),
    }
}

// The chaining value after the whole blocks of some bytes.
pub(crate) fn chain_blocks(key: &Prepared, alg: Alg, chain: u64, bytes: &[u8]) -> u64
    requires { IsTrue (takes_key alg key.now) }
    ensures { result ≡ chained alg key.now chain (blocks_of bytes.now) }
{
    let (blocks, _) = bytes.as_chunks::<8>();
    let mut value = chain;
    for block in blocks {
        value = encipher_block(key, alg, value ^ block_of_bytes(*block));
    }
    value
}

// The last block: the bytes after the whole blocks, and zeros.
fn last_block(bytes: &[u8]) -> u64
    requires { length bytes.now ≤ 8 }
    ensures { result ≡ block_of_bytes (bytes.now ++ replicate (8 - length bytes.now) 0) }
{
    let mut block = [0; 8];
    block[..bytes.len()].copy_from_slice(bytes);
    block_of_bytes(block)
}

// The chaining value after bytes to which zeros are added.
fn chain_zeros(key: &Prepared, alg: Alg, chain: u64, bytes: &[u8]) -> u64
    requires { IsTrue (takes_key alg key.now) }
    ensures { result ≡ chained alg key.now chain (blocks_of (zeros_added bytes.now)) }
{
    let whole = chain_blocks(key, alg, chain, bytes);
    let rest = &bytes[bytes.len() - bytes.len() % 8..];
    if rest.is_empty() {
        return whole;
    }
    encipher_block(key, alg, whole ^ last_block(rest))
}

// The chaining value after bytes to which the byte 80 and zeros are added.
fn chain_bit(key: &Prepared, alg: Alg, chain: u64, bytes: &[u8]) -> u64
    requires { IsTrue (takes_key alg key.now) }
    ensures { result ≡ chained alg key.now chain (blocks_of (zeros_added (bytes.now ++ 0x80 ∷ []))) }
{
    let whole = chain_blocks(key, alg, chain, bytes);
    let rest = &bytes[bytes.len() - bytes.len() % 8..];
    let mut block = [0; 8];
    block[..rest.len()].copy_from_slice(rest);
    block[rest.len()] = 0x80;
    encipher_block(key, alg, whole ^ block_of_bytes(block))
}

// The chaining value after padded bytes.
pub(crate) fn chain_padded(key: &Prepared, alg: Alg, chain: u64, pad: Pad, bytes: &[u8]) -> u64
    requires { IsTrue (takes_key alg key.now) }
    ensures { result ≡ chained alg key.now chain (blocks_of (padded pad bytes.now)) }
{
    match pad {
        Pad::Bare => chain_blocks(key, alg, chain, bytes),
        Pad::Zeros => chain_zeros(key, alg, chain, bytes),
        Pad::Bit => chain_bit(key, alg, chain, bytes),
        Pad::Length => {
            let bits = (bytes.len() as u64).wrapping_mul(8);
            chain_zeros(key, alg, encipher_block(key, alg, chain ^ bits), bytes)
        }
    }
}
