//! The words of the command line.

ghost use Rattle.std.specs.Prelude.{◌≡◌, ◌⊎◌, ◌∷◌, [], ℕ, List, IfSome, codes};
ghost use Rattle.std.specs.Option.{option_map};
ghost use Rattle.hsm_rows.specs.Table.{IsHostRow, host_rows, row_with, shape_of, shown_shape};
ghost use Rattle.hsm_session.specs.Scripts.{not_zero, number_within};
ghost use Rattle.hsm_program.specs.Words.{ReadsWords, ReadsRest, asked, make, usage, asked_check, asked_code, asked_make, asked_script, asked_serve, is_file_word, names};

use hsm_rows::{Row, row_of};
use hsm_session::number_within;
use thiserror::Error;

/// What the words ask for. A place indexes the words.
#[derive(Clone, Copy)]
pub enum Command {
    /// Serves the lanes of a configuration.
    Serve { config: usize },
    /// Runs the script of a file under a configuration.
    Script { config: usize, file: usize },
    /// Checks a configuration.
    Check { config: usize },
    /// Prints the row of a host command.
    Explain { row: &'static Row },
    /// Makes a script of 1 to 50,000 messages, runs it, and prints a line that sums up the run.
    Make { count: u32, seed: u32 },
}

/// The words are no command.
#[derive(Clone, Copy, Debug, Error, PartialEq, Eq)]
pub enum WordsFault {
    /// The place of the first word that no command allows, counted from 0, or the number of words where one is missing.
    #[error("usage at word {0}")]
    Usage(usize),
}

/// The command of the words: `serve CONFIG`, `script CONFIG FILE`, `check CONFIG`, `explain CODE` or `make COUNT SEED`.
pub fn read_words(words: &[String]) -> Result<Command, WordsFault>
    ensures { ReadsWords (names words.now) result }
{
    let [first, rest @ ..] = words else {
        return Err(WordsFault::Usage(0));
    };
    let word = first.as_bytes();
    if word == b"serve".as_slice() {
        read_serve(rest)
    } else if word == b"script".as_slice() {
        read_script(rest)
    } else if word == b"check".as_slice() {
        read_check(rest)
    } else if word == b"explain".as_slice() {
        read_code(rest)
    } else if word == b"make".as_slice() {
        read_make(rest)
    } else {
        Err(WordsFault::Usage(0))
    }
}

fn read_script(words: &[String]) -> Result<Command, WordsFault>
    ensures { ReadsRest asked_script (names words.now) result }
{
    let [config, rest @ ..] = words else {
        return Err(WordsFault::Usage(1));
    };
    if !is_file_word(config.as_bytes()) {
        return Err(WordsFault::Usage(1));
    }
    let [file, rest @ ..] = rest else {
        return Err(WordsFault::Usage(2));
    };
    if !is_file_word(file.as_bytes()) {
        return Err(WordsFault::Usage(2));
    }
    if !rest.is_empty() {
        return Err(WordsFault::Usage(3));
    }
    Ok(Command::Script { config: 1, file: 2 })
}

fn read_serve(words: &[String]) -> Result<Command, WordsFault>
    ensures { ReadsRest asked_serve (names words.now) result }
{
    let [config, rest @ ..] = words else {
        return Err(WordsFault::Usage(1));
    };
    if !is_file_word(config.as_bytes()) {
        return Err(WordsFault::Usage(1));
    }
    if !rest.is_empty() {
        return Err(WordsFault::Usage(2));
    }
    Ok(Command::Serve { config: 1 })
}

fn read_check(words: &[String]) -> Result<Command, WordsFault>
    ensures { ReadsRest asked_check (names words.now) result }
{
    let [config, rest @ ..] = words else {
        return Err(WordsFault::Usage(1));
    };
    if !is_file_word(config.as_bytes()) {
        return Err(WordsFault::Usage(1));
    }
    if !rest.is_empty() {
        return Err(WordsFault::Usage(2));
    }
    Ok(Command::Check { config: 1 })
}

fn read_code(words: &[String]) -> Result<Command, WordsFault>
    ensures { ReadsRest asked_code (names words.now) result }
{
    let [word, rest @ ..] = words else {
        return Err(WordsFault::Usage(1));
    };
    let Some(row) = host_row(word.as_bytes()) else {
        return Err(WordsFault::Usage(1));
    };
    if !rest.is_empty() {
        return Err(WordsFault::Usage(2));
    }
    Ok(Command::Explain { row })
}

fn read_make(words: &[String]) -> Result<Command, WordsFault>
    ensures { ReadsRest asked_make (names words.now) result }
{
    let [count, rest @ ..] = words else {
        return Err(WordsFault::Usage(1));
    };
    let Some(count) = count_of(count.as_bytes()) else {
        return Err(WordsFault::Usage(1));
    };
    let [seed, rest @ ..] = rest else {
        return Err(WordsFault::Usage(2));
    };
    let Some(seed) = seed_of(seed.as_bytes()) else {
        return Err(WordsFault::Usage(2));
    };
    if !rest.is_empty() {
        return Err(WordsFault::Usage(3));
    }
    Ok(Command::Make { count, seed })
}

/// `make` is a command with just two more words, the decimal numbers of 1 to 50,000 messages and of a seed of 32 bits, without sign
/// and leading zeros.
pub fn words_of_make()
    ensures least { asked (codes "make" ∷ codes "1" ∷ codes "0" ∷ []) ≡ make 1 0 }
    ensures greatest { asked (codes "make" ∷ codes "50000" ∷ codes "4294967295" ∷ []) ≡ make 50000 4294967295 }
    ensures fewer { (asked (codes "make" ∷ []) ≡ usage 1) × (asked (codes "make" ∷ codes "1" ∷ []) ≡ usage 2) }
    ensures more { (word : List ℕ) (rest : List (List ℕ)) → asked (codes "make" ∷ codes "1" ∷ codes "0" ∷ word ∷ rest) ≡ usage 3 }
    ensures many { (rest : List (List ℕ)) → asked (codes "make" ∷ codes "50001" ∷ rest) ≡ usage 1 }
    ensures large_seed { (rest : List (List ℕ)) → asked (codes "make" ∷ codes "1" ∷ codes "4294967296" ∷ rest) ≡ usage 2 }
    // A number of messages that begins with 0, also 0 itself.
    ensures zero { (digits : List ℕ) (rest : List (List ℕ)) → asked (codes "make" ∷ (48 ∷ digits) ∷ rest) ≡ usage 1 }
    ensures seed_zero { (digit : ℕ) (digits : List ℕ) (rest : List (List ℕ)) → asked (codes "make" ∷ codes "1" ∷ (48 ∷ digit ∷ digits) ∷ rest) ≡ usage 2 }
    // `+` and `-`.
    ensures sign { (sign : ℕ) (digits : List ℕ) (rest : List (List ℕ)) → (sign ≡ 43) ⊎ (sign ≡ 45) → asked (codes "make" ∷ (sign ∷ digits) ∷ rest) ≡ usage 1 }
    ensures seed_sign { (sign : ℕ) (digits : List ℕ) (rest : List (List ℕ)) → (sign ≡ 43) ⊎ (sign ≡ 45) → asked (codes "make" ∷ codes "1" ∷ (sign ∷ digits) ∷ rest) ≡ usage 2 }
{}

// The number of messages of a made script.
fn count_of(word: &[u8]) -> Option<u32>
    ensures { result ≡ not_zero (number_within 50000 word.now) }
{
    match number_within(word, 50_000) {
        Some(0) | None => None,
        Some(count) => Some(count as u32),
    }
}

// The seed of a made script.
fn seed_of(word: &[u8]) -> Option<u32>
    ensures { result ≡ number_within 4294967295 word.now }
{
    match number_within(word, 4_294_967_295) {
        Some(seed) => Some(seed as u32),
        None => None,
    }
}

// The host row of a word. Each host code has two bytes.
fn host_row(word: &[u8]) -> Option<&'static Row>
    ensures row { option_map shown_shape result ≡ row_with word.now host_rows }
    ensures host { IfSome result (λ r. IsHostRow (shape_of r.now)) }
{
    match <&[u8; 2]>::try_from(word) {
        Ok(code) => row_of(code),
        Err(_) => None,
    }
}

fn is_file_word(word: &[u8]) -> bool
    ensures { result ≡ is_file_word word.now }
{
    !word.is_empty() && word[0] != b'-'
}
