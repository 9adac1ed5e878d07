//! How a command ends.

use hsm_config::ConfigFault;
use thiserror::Error;

/// What a command came to. Printed it is the line of the program on standard error.
#[derive(Clone, Copy, Debug, Error, PartialEq, Eq)]
pub enum Outcome {
    /// The command went to its end. Status 0; 6 where a lane of a script or a connection was cut or ended by a short frame;
    /// 7 where a read or a write of a connection, or a door, failed.
    #[error("hsm: served")]
    Served,
    /// The words are no command: the place of the first word that no command allows. Status 2.
    #[error("hsm: usage at word {0}")]
    Usage(u64),
    /// Opening or reading a file failed. Status 3.
    #[error("hsm: file fault")]
    FileFault,
    /// No seed could be had. Status 3.
    #[error("hsm: seed fault")]
    SeedFault,
    /// The door of this lane could not be opened. Status 3.
    #[error("hsm: no door for lane {0}")]
    ListenFault(u64),
    /// A write of the output failed. Status 3.
    #[error("hsm: output fault")]
    OutFault,
    /// A file has more than 16,777,216 bytes. Status 4.
    #[error("hsm: file too long")]
    FileLong,
    /// The file of the configuration is no TOML document, or breaks a rule: never want of memory. Status 4.
    #[error("hsm: {0}")]
    ConfigRefused(ConfigFault),
    /// The first line of the script that does not read, counted from 1. Status 4.
    #[error("hsm: line {0}")]
    ScriptRefused(u64),
    /// Want of memory. Status 5.
    #[error("hsm: no memory")]
    Memory,
}
