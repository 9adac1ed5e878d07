//! Laws of nibbles and characters.
ghost use Rattle.std.specs.Prelude.{◌≡◌, ◌^◌, ◌<◌, ℕ, List, length, flat_map};
ghost use Rattle.std.specs.Int.{w64, to_be_bytes};
ghost use Rattle.std.specs.Int.Digits.{AllBelowBase};
ghost use Rattle.hsm_nibbles.specs.Nibbles.{nibbles_of, block_of, byte_nibbles};
ghost use Rattle.hsm_nibbles.specs.Characters.{hex_character, digit_value};

/// A block and its nibbles give each other, and the nibbles of a block are those of its bytes.
pub fn blocks_and_nibbles()
    ensures block { (block : ℕ) → block < 2 ^ 64 → block_of (nibbles_of block) ≡ block }
    ensures nibbles { (xs : List ℕ) → length xs ≡ 16 → AllBelowBase 16 xs → nibbles_of (block_of xs) ≡ xs }
    ensures bytes { (block : ℕ) → nibbles_of block ≡ flat_map byte_nibbles (to_be_bytes w64 block) }
{}

/// The character of a digit gives the digit.
pub fn digits_and_characters()
    ensures { (digit : ℕ) → digit < 16 → digit_value (hex_character digit) ≡ digit }
{}
