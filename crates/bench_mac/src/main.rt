// The loads that bench/mac times, named by its arguments: `one` and `three`, the algorithms of ISO 9797-1.
// Each prints the last MAC of its chain. With no argument it ends at once.
#![tactic(auto)]

ghost use Rattle.std.specs.Prelude.{◌≤◌, IsTrue, length};
ghost use Rattle.hsm_mac.specs.Macs.{takes_key};

use hsm_mac::{Alg, Pad, whole};
use hsm_tdes::Key;
use std::alloc::{AllocError, Global};
use std::{env, io};

const FIRST_KEY: [u8; 8] = [0x13, 0x34, 0x57, 0x79, 0x9B, 0xBC, 0xDF, 0xF1];

const SECOND_KEY: [u8; 8] = [0x01, 0x23, 0x45, 0x67, 0x89, 0xAB, 0xCD, 0xEF];

// A thousand MACs of a message that begins with the MAC before.
fn chain(key: &Key, alg: Alg, message: &mut [u8]) -> u64
    requires key { IsTrue (takes_key alg key.now) }
    requires block { 8 ≤ length message.old }
{
    let mut mac = 0u64;
    for _ in 0..1000u32 {
        message[..8].copy_from_slice(&mac.to_be_bytes());
        mac = whole(key, alg, Pad::Bare, message).unwrap_or(0);
    }
    mac
}

// That chain with a message of so many bytes.
fn macs(alloc: Global, key: &Key, alg: Alg, size: usize) -> Result<u64, AllocError>
    requires key { IsTrue (takes_key alg key.now) }
    requires block { 8 ≤ size }
{
    let mut message = vec![in alloc; 0; size]?;
    Ok(chain(key, alg, &mut message))
}

fn main(rt: HostRuntime) -> io::Result<()> {
    let one = Key::one(&FIRST_KEY);
    let two = Key::two(&FIRST_KEY, &SECOND_KEY);
    for word in env::args(&rt)?.skip(1) {
        let mac = match word.as_str() {
            "one" => macs(rt.alloc(), &one, Alg::One, 65528)?,
            "three" => macs(rt.alloc(), &two, Alg::Three, 65528)?,
            _ => continue,
        };
        println!(rt; "{mac:016X}")?;
    }
    Ok(())
}
