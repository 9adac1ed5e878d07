//! Blocks of 64 bits and the bytes that write them: words that MACs and modes of the cipher have in common.
#![tactic(auto)]

ghost use Rattle.std.specs.Prelude.{◌≡◌};
ghost use Rattle.hsm_blocks.specs.Blocks.{block_of_bytes, fills_blocks};

pub mod laws;

/// The block of 8 bytes, the first byte most significant.
#[inline]
pub fn block_of_bytes(bytes: [u8; 8]) -> u64
    ensures { result ≡ block_of_bytes bytes }
{
    u64::from_be_bytes(bytes)
}

/// Whether the bytes fill blocks of 8.
pub fn fills_blocks(bytes: &[u8]) -> bool
    ensures { result ≡ fills_blocks bytes.now }
{
    bytes.len() % 8 == 0
}
