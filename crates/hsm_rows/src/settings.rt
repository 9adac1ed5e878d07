//! The settings of the security module.
use arrayvec::ArrayVec;
use hsm_lmk::LmkSet;
use hsm_types::Permits;

/// The settings of the security module.
#[derive(Drop)]
pub struct Module {
    /// The LMK sets that seal keys and PINs. Set n is loaded where n is below their number.
    pub lmks: ArrayVec<LmkSet, 4>,
    /// What is permitted for keys of each type.
    pub permits: Permits,
    /// The codes of the host rows that it answers as if they were in no row.
    pub disabled: ArrayVec<[u8; 2], 23>,
    /// How many bytes of a host message stand before its command code and are repeated in the reply.
    pub header: u8,
    /// The number of host lanes, 1 to 64.
    pub hosts: u8,
    /// The SHA-256 digests of the two officers' words.
    pub officers: [[u8; 32]; 2],
    /// The seed of the random words.
    pub seed: [u8; 32],
}
