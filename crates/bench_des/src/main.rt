// The loads that bench/des times, named by its arguments: `block`, `schedule`, `two-part`, and `two` and `two-part-two` for
// two chains side by side. Each prints the last block or key of its chain, or the exclusive-or of the last blocks of its
// chains. With no argument it ends at once.
#![tactic(auto)]

use hsm_des::{Schedule, Two, encrypt, encrypt_decrypt_encrypt};
use std::{env, io};

const FIRST_KEY: [u8; 8] = [0x13, 0x34, 0x57, 0x79, 0x9B, 0xBC, 0xDF, 0xF1];

const SECOND_KEY: [u8; 8] = [0x01, 0x23, 0x45, 0x67, 0x89, 0xAB, 0xCD, 0xEF];

const THIRD_KEY: [u8; 8] = [0x23, 0x45, 0x67, 0x89, 0xAB, 0xCD, 0xEF, 0x01];

const FOURTH_KEY: [u8; 8] = [0x45, 0x67, 0x89, 0xAB, 0xCD, 0xEF, 0x01, 0x23];

// Ten million blocks, each the one before enciphered.
fn blocks() -> u64 {
    let schedule = Schedule::new(FIRST_KEY);
    let mut block = 0;
    for _ in 0..10_000_000u32 {
        block = encrypt(&schedule, block);
    }
    block
}

// Ten million keys, each the one before enciphered under itself.
fn schedules() -> u64 {
    let mut key = u64::from_be_bytes(FIRST_KEY);
    for _ in 0..10_000_000u32 {
        key = encrypt(&Schedule::new(key.to_be_bytes()), key);
    }
    key
}

// Four million blocks, each the one before enciphered under a key of two parts.
fn two_part_blocks() -> u64 {
    let first = Schedule::new(FIRST_KEY);
    let second = Schedule::new(SECOND_KEY);
    let mut block = 0;
    for _ in 0..4_000_000u32 {
        block = encrypt_decrypt_encrypt(&first, &second, &first, block);
    }
    block
}

// Ten million blocks in two chains side by side, each under a schedule of its own.
fn two_chains() -> u64 {
    let first = Schedule::new(FIRST_KEY);
    let second = Schedule::new(SECOND_KEY);
    let mut blocks = (0, 0);
    for _ in 0..5_000_000u32 {
        let mut two = Two::new(blocks.0, blocks.1);
        two.encrypt(&first, &second);
        blocks = two.blocks();
    }
    blocks.0 ^ blocks.1
}

// Four million blocks in two chains side by side, each under a key of two parts of its own.
fn two_two_part_chains() -> u64 {
    let first = Schedule::new(FIRST_KEY);
    let second = Schedule::new(SECOND_KEY);
    let third = Schedule::new(THIRD_KEY);
    let fourth = Schedule::new(FOURTH_KEY);
    let mut blocks = (0, 0);
    for _ in 0..2_000_000u32 {
        let mut two = Two::new(blocks.0, blocks.1);
        two.encrypt(&first, &third);
        two.decrypt(&second, &fourth);
        two.encrypt(&first, &third);
        blocks = two.blocks();
    }
    blocks.0 ^ blocks.1
}

fn main(rt: HostRuntime) -> io::Result<()> {
    for word in env::args(&rt)?.skip(1) {
        let result = match word.as_str() {
            "block" => blocks(),
            "schedule" => schedules(),
            "two-part" => two_part_blocks(),
            "two" => two_chains(),
            "two-part-two" => two_two_part_chains(),
            _ => continue,
        };
        println!(rt; "{result:016X}")?;
    }
    Ok(())
}
