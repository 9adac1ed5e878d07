//! Modules of the test laboratory.
#![tactic(auto)]

use hsm_config::Config;
use hsm_rows::Module;
use itoa::Buffer;
use std::alloc::{AllocError, Global};

// What each configuration begins with: the digests are those of the officers' words, abc and hello.
const HEAD: &[u8] = br#"
version = 1
header = 4
officers = ["ba7816bf8f01cfea414140de5dae2223b00361a396177a9cb410ff61f20015ad",
            "2cf24dba5fb0a30e26e83b2ac5b9e29e1b161e5c1fa7425e73043362938b9824"]
console_port = 1500
accept = 8
"#;

// Every half is 133457799BBCDFF1.
const PAIR_E: &[u8] = b"\"133457799BBCDFF1133457799BBCDFF1\",";

// Both halves are 0123456789ABCDEF.
const PAIR_14: &[u8] = b"\"0123456789ABCDEF0123456789ABCDEF\",";

/// A set of LMK pairs.
#[derive(Clone, Copy)]
pub enum Set {
    /// The pairs of `lmk = "test"`.
    T,
    /// Every half is 133457799BBCDFF1.
    E1,
    /// As `E1`, but both halves of pair 14-15 are 0123456789ABCDEF.
    E2,
}

// The pairs of a set that lists them; pair 14-15 is the one at place 7.
fn push_pairs(text: &mut Vec<u8>, pair_14: &[u8]) -> Result<(), AllocError> {
    text.extend_from_slice(b"lmk = [")?;
    for place in 0..20 {
        text.extend_from_slice(if place == 7 { pair_14 } else { PAIR_E })?;
    }
    text.extend_from_slice(b"]\n")
}

// The configuration of a set with so many hosts.
fn config_text(alloc: Global, set: Set, hosts: u8) -> Result<Vec<u8>, AllocError> {
    let mut text = HEAD.to_vec(alloc)?;
    match set {
        Set::T => text.extend_from_slice(b"lmk = \"test\"\n")?,
        Set::E1 => push_pairs(&mut text, PAIR_E)?,
        Set::E2 => push_pairs(&mut text, PAIR_14)?,
    }
    text.extend_from_slice(b"host_ports = [")?;
    for host in 0..hosts {
        text.extend_from_slice(Buffer::new().format(1501 + u16::from(host)).as_bytes())?;
        text.push(b',')?;
    }
    text.extend_from_slice(b"]\n")?;
    Ok(text)
}

/// The module of two sets, 00 and 01, with so many hosts, 1 to 64, and the seed of zeros; none as of [`module_of`].
pub fn module_of_two(alloc: Global, sets: [Set; 2], hosts: u8) -> Option<Module> {
    let mut module = module_of(alloc, sets[0], hosts)?;
    let other = module_of(alloc, sets[1], hosts)?;
    let set = other.lmks.first()?;
    module.lmks.try_push(*set).ok()?;
    Some(module)
}

/// The module of a set, with so many hosts, 1 to 64, and the seed of zeros; none for another number of hosts, or where
/// memory is refused.
pub fn module_of(alloc: Global, set: Set, hosts: u8) -> Option<Module> {
    let text = config_text(alloc, set, hosts).ok()?;
    let config = Config::read(alloc, &text).ok()?;
    Some(config.module([0; 32]))
}
