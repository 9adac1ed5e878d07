//! The configuration of a document.

ghost use Rattle.std.specs.Prelude.{◌≡◌, ◌⊎◌, ◌≤◌, length, true, IsTrue, IfOk, IfErr};
ghost use Rattle.toml.specs.View.{table_view};
ghost use Rattle.hsm_config.specs.Configs.{config_in, module_of, ports_of, settled};
ghost use Rattle.hsm_config.specs.Rules.{all_different, are_odd, first_broken};

use crate::keys::has_known_keys;
use crate::pairs::{are_odd, pairs_of};
use crate::ports::{are_different, host_ports_of};
use crate::values::{all_hex_bytes, elements_at, number_at};
use arrayvec::ArrayVec;
use hsm_lmk::LmkSet;
use hsm_rows::Module;
use hsm_types::Permits;
use std::alloc::Global;
use thiserror::Error;
use toml::Table;

/// The configuration of the module.
#[derive(Drop)]
pub struct Config {
    /// How many bytes of a host message stand before its command code.
    pub header: u8,
    /// The SHA-256 digests of the two officers' words.
    pub officers: [[u8; 32]; 2],
    /// The LMK pairs, each the two parts one after another.
    pub pairs: [[u8; 16]; 20],
    /// The port of the console, 1 to 65535.
    pub console_port: u16,
    /// The ports of the host lanes, 1 to 64 ports of 1 to 65535.
    pub host_ports: ArrayVec<u16, 64>,
    /// How many connections each lane accepts, 1 to 4096.
    pub accept: u16,
}

/// Why bytes are no configuration.
#[derive(Clone, Copy, Debug, Error, PartialEq, Eq)]
pub enum ConfigFault {
    /// Want of memory.
    #[error("no memory")]
    Memory,
    /// The bytes are no TOML document.
    #[error("not toml")]
    NotToml,
    /// The document breaks this rule, 1 to 10, and none before it.
    #[error("rule {0}")]
    Rule(u64),
}

impl Config {
    /// The configuration that a TOML document says.
    ///
    /// `NotToml` comes exactly where the bytes are no document and `Rule(n)` exactly where n is the first rule that the document
    /// breaks, but that want of memory may come in place of each.
    pub fn read(alloc: Global, bytes: &[u8]) -> Result<Config, ConfigFault>
        ensures ok { IfOk result (λ config. config_in bytes.now ≡ Ok config) }
        ensures refused { IfErr result (λ fault. (fault ≡ ConfigFault.Memory) ⊎ (config_in bytes.now ≡ Err fault)) }
        // What `module` wants of a configuration.
        ensures odd { IfOk result (λ config. IsTrue (are_odd config.pairs)) }
        ensures some_host { IfOk result (λ config. 1 ≤ length config.host_ports.items) }
        // What one who opens the ports wants of it.
        ensures different { IfOk result (λ config. all_different (ports_of config) ≡ true) }
    {
        match toml::table_from_slice(alloc, bytes) {
            Ok(table) => config_of(&table),
            Err(error) => {
                if error.is_memory() {
                    Err(ConfigFault::Memory)
                } else {
                    Err(ConfigFault::NotToml)
                }
            }
        }
    }

    /// The module of the configuration: the permits of the table of key types, and no row disabled.
    #[tactic(auto, unfolding(crate::specs::Configs::module_of))]
    pub fn module(&self, seed: [u8; 32]) -> Module
        requires odd { IsTrue (are_odd self.now.pairs) }
        requires some_host { 1 ≤ length self.now.host_ports.items }
        ensures { result ≡ module_of self.now seed }
    {
        let mut lmks = ArrayVec::new();
        match LmkSet::of(&self.pairs) {
            Ok(set) => lmks.push(set),
            Err(_) => unreachable!(),
        }
        Module {
            lmks,
            permits: Permits::table(),
            disabled: ArrayVec::new(),
            header: self.header,
            hosts: self.host_ports.len() as u8,
            officers: self.officers,
            seed,
        }
    }
}

// The configuration of a document, or the first rule that it breaks.
fn config_of(table: &Table) -> Result<Config, ConfigFault>
    ensures { result ≡ settled (table_view table.now) (first_broken (table_view table.now)) }
{
    if !has_known_keys(table) {
        return Err(ConfigFault::Rule(1));
    }
    let Some(_) = number_at(table, "version", 1, 1) else {
        return Err(ConfigFault::Rule(2));
    };
    let Some(header) = number_at(table, "header", 0, 255) else {
        return Err(ConfigFault::Rule(3));
    };
    let Some(officers) = all_hex_bytes(elements_at(table, "officers")) else {
        return Err(ConfigFault::Rule(4));
    };
    let Some(pairs) = pairs_of(table) else {
        return Err(ConfigFault::Rule(5));
    };
    if !are_odd(&pairs) {
        return Err(ConfigFault::Rule(6));
    }
    let Some(console_port) = number_at(table, "console_port", 1, u16::MAX) else {
        return Err(ConfigFault::Rule(7));
    };
    let Some(host_ports) = host_ports_of(table) else {
        return Err(ConfigFault::Rule(8));
    };
    if !are_different(console_port, &host_ports) {
        return Err(ConfigFault::Rule(9));
    }
    let Some(accept) = number_at(table, "accept", 1, 4096) else {
        return Err(ConfigFault::Rule(10));
    };
    Ok(Config {
        header: header as u8,
        officers,
        pairs,
        console_port,
        host_ports,
        accept,
    })
}
