//! The types of keys, and what is permitted for each.

/// The type of a key: what the key is for, and so which LMK pair and variant seal it.
#[derive(Clone, Copy, Debug, PartialEq, Eq)]
pub enum KeyType {
    /// A zone master key, code 000.
    Zmk,
    /// A zone PIN key, code 001.
    Zpk,
    /// A terminal PIN key, a terminal master key or a PIN verification key, code 002.
    Tpk,
    /// A card verification key, code 402.
    Cvk,
    /// A terminal authentication key, code 003.
    Tak,
    /// A zone authentication key, code 008.
    Zak,
    /// A base derivation key, code 009.
    Bdk,
    /// A zone encryption key, code 00A.
    Zek,
    /// A data encryption key, code 00B.
    Dek,
}

/// What may be permitted for keys of a type.
#[derive(Clone, Copy, Debug, PartialEq, Eq)]
pub enum Act {
    /// To draw a new key.
    Generate,
    /// To take a key from under a wrapping key to under the LMK.
    Import,
    /// To give a key of the LMK under a wrapping key.
    Export,
}

/// Whether an act is permitted.
#[derive(Clone, Copy, Debug, PartialEq, Eq)]
pub enum Permit {
    /// Yes.
    Y,
    /// While its activity is authorised.
    A,
    /// No.
    N,
}

/// How a key is written under a wrapping key, named by the tag of its text.
#[derive(Clone, Copy, Debug, PartialEq, Eq)]
pub enum Scheme {
    /// One part, under the wrapping key.
    Z,
    /// Two parts without a tag, under the wrapping key.
    P,
    /// Two parts, each under its scheme variant.
    U,
    /// Three parts, each under its scheme variant.
    T,
    /// Two parts, under the wrapping key, which is no LMK pair.
    X,
    /// Three parts, under the wrapping key, which is no LMK pair.
    Y,
}

/// The permits of one type.
#[derive(Clone, Copy, Debug, PartialEq, Eq)]
pub struct TypePermits {
    pub(crate) generate: Permit,
    pub(crate) import: Permit,
    pub(crate) export: Permit,
}

/// A permit for each type and act.
#[derive(Clone, Copy, Debug, PartialEq, Eq)]
pub struct Permits {
    pub(crate) zmk: TypePermits,
    pub(crate) zpk: TypePermits,
    pub(crate) tpk: TypePermits,
    pub(crate) cvk: TypePermits,
    pub(crate) tak: TypePermits,
    pub(crate) zak: TypePermits,
    pub(crate) bdk: TypePermits,
    pub(crate) zek: TypePermits,
    pub(crate) dek: TypePermits,
}
