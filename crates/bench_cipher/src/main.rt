// The loads that bench/cipher times, named by its arguments: a mode (`ecb`, `cbc`), a direction (`encrypt`, `decrypt`), the
// parts of the key (`one`, `two`, `three`), and the size of the messages in KB (`8`, `32`), at which the load runs. It
// prints the exclusive-or of the last message's blocks. With no argument it ends at once.
#![tactic(auto)]

ghost use Rattle.std.specs.Prelude.{◌≡◌, length};

use hsm_blocks::block_of_bytes;
use hsm_modes::{Cipher, Dir, Mode};
use hsm_tdes::Key;
use std::alloc::{AllocError, Global};
use std::{env, io};

const FIRST_KEY: [u8; 8] = [0x13, 0x34, 0x57, 0x79, 0x9B, 0xBC, 0xDF, 0xF1];

const SECOND_KEY: [u8; 8] = [0x01, 0x23, 0x45, 0x67, 0x89, 0xAB, 0xCD, 0xEF];

const THIRD_KEY: [u8; 8] = [0x23, 0x45, 0x67, 0x89, 0xAB, 0xCD, 0xEF, 0x01];

// How a message is enciphered or deciphered.
#[derive(Clone, Copy)]
struct Load {
    key: Key,
    mode: Mode,
    dir: Dir,
}

// Enciphers or deciphers a message of 8 bytes a block in its place, by way of words.
fn cipher(load: &Load, message: &mut [[u8; 8]], blocks: &mut [u64])
    requires { length blocks.old ≡ length message.old }
{
    let mut cipher = Cipher::begin(&load.key, load.mode, load.dir, 0);
    for i in 0..message.len() {
        blocks[i] = block_of_bytes(message[i]);
    }
    cipher.blocks(blocks);
    for i in 0..message.len() {
        message[i] = blocks[i].to_be_bytes();
    }
}

// So many messages of so many blocks, each made of the one before, and the exclusive-or of the last one's blocks.
fn messages(alloc: Global, load: &Load, count: u32, size: usize) -> Result<u64, AllocError> {
    let mut message = vec![in alloc; [0u8; 8]; size]?;
    let mut blocks = vec![in alloc; 0u64; size]?;
    for i in 0..message.len() {
        message[i] = (i as u64).to_be_bytes();
    }
    for _ in 0..count {
        cipher(load, &mut message, &mut blocks);
    }
    let mut sum = 0;
    for block in &blocks {
        sum ^= *block;
    }
    Ok(sum)
}

fn main(rt: HostRuntime) -> io::Result<()> {
    let one = Key::one(&FIRST_KEY);
    let two = Key::two(&FIRST_KEY, &SECOND_KEY);
    let three = Key::three(&FIRST_KEY, &SECOND_KEY, &THIRD_KEY);
    let mut load = Load {
        key: one,
        mode: Mode::Ecb,
        dir: Dir::Encrypt,
    };
    for word in env::args(&rt)?.skip(1) {
        let (count, size) = match word.as_str() {
            "8" => (2048, 1024),
            "32" => (512, 4096),
            _ => (0, 0),
        };
        match word.as_str() {
            "ecb" => load.mode = Mode::Ecb,
            "cbc" => load.mode = Mode::Cbc,
            "encrypt" => load.dir = Dir::Encrypt,
            "decrypt" => load.dir = Dir::Decrypt,
            "one" => load.key = one,
            "two" => load.key = two,
            "three" => load.key = three,
            _ => {}
        }
        if count > 0 {
            let sum = messages(rt.alloc(), &load, count, size)?;
            println!(rt; "{sum:016X}")?;
        }
    }
    Ok(())
}
