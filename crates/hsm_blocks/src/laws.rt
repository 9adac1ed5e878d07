//! Laws of blocks and bytes.
ghost use Rattle.std.specs.Prelude.{◌≡◌, ◌*◌, ◌/◌, ◌++◌, [], ◌∷◌, ℕ, List, length, true};
ghost use Rattle.hsm_blocks.specs.Blocks.{AllFillBlocks, block_of_bytes, blocks_of, bytes_of, fills_blocks, joined};

/// Eight bytes are one block. Bytes that follow a whole number of blocks have the blocks that they have by themselves,
/// and so have the bytes of blocks. Parts that fill blocks fill blocks when they are joined.
pub fn blocks_join()
    ensures one { (bytes : List ℕ) → length bytes ≡ 8 → blocks_of bytes ≡ block_of_bytes bytes ∷ [] }
    ensures blocks { (xs ys : List ℕ) → fills_blocks xs ≡ true → blocks_of (xs ++ ys) ≡ blocks_of xs ++ blocks_of ys }
    ensures bytes { (xs ys : List ℕ) → bytes_of (xs ++ ys) ≡ bytes_of xs ++ bytes_of ys }
    ensures parts { (parts : List (List ℕ)) → AllFillBlocks parts → fills_blocks (joined parts) ≡ true }
{}

/// How many blocks bytes have, and how many bytes blocks have.
pub fn counts()
    ensures blocks { (bytes : List ℕ) → length (blocks_of bytes) ≡ length bytes / 8 }
    ensures bytes { (blocks : List ℕ) → length (bytes_of blocks) ≡ 8 * length blocks }
{}
