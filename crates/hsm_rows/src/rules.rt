//! What a row of the command table asks of its fields beyond their forms, and what its reply is made of. A number names
//! a field of the row, counted from 0, or where it says so a code.

use super::row::{Code, Secret};
use hsm_auth::{Category, Place};
use hsm_types::{Act, KeyType};

/// Where the type of a key is named.
#[derive(Clone, Copy, Debug, PartialEq, Eq)]
pub enum TypeSource {
    /// By the row.
    Fixed(KeyType),
    /// By a `type` field.
    Named(u8),
    /// By a `type2` field, with the `type` field that follows FF.
    ByPair { pair: u8, full: u8 },
    /// By `[;f]`: ZMK or TMK.
    WrapperType(u8),
}

/// What a key's number of parts must agree with.
#[derive(Clone, Copy, Debug, PartialEq, Eq)]
pub enum LengthRule {
    AnyLength,
    /// A scheme field, else 26.
    AsScheme(u8),
    /// A flag field plus 1, else 27.
    FlagPlusOne(u8),
    /// Two parts where an algorithm field is 3, else 27.
    TwoForAlgorithmThree(u8),
}

/// What a key's text is enciphered under.
#[derive(Clone, Copy, Debug, PartialEq, Eq)]
pub enum Under {
    /// The LMK pair of its type.
    Lmk,
    /// The key of another field.
    KeyAt(u8),
}

/// A key in the order of checking.
#[derive(Clone, Copy, Debug, PartialEq, Eq)]
pub enum KeyCheck {
    GivenKey {
        field: u8,
        under: Under,
        ty: TypeSource,
        /// It wraps another key.
        wraps: bool,
        rule: LengthRule,
        /// The code of a part of even parity.
        parity: Code,
    },
    /// A key to be made, in the scheme of a field and where it is present in one of equal length.
    Target {
        ty: TypeSource,
        scheme: u8,
        second: Option<u8>,
    },
}

/// An act on the type that is named there; with a field, only where that field is present.
#[derive(Clone, Copy, Debug, PartialEq, Eq)]
pub struct ActUse {
    pub act: Act,
    pub ty: TypeSource,
    pub where_present: Option<u8>,
}

/// A need that stands whatever the permits are: of no type, or of the type that is named there.
#[derive(Clone, Copy, Debug, PartialEq, Eq)]
pub struct FixedNeed {
    pub category: Category,
    pub ty: Option<TypeSource>,
    pub place: Place,
}

/// The random words of a message.
#[derive(Clone, Copy, Debug, PartialEq, Eq)]
pub enum Words {
    NoWords,
    /// Two for each part of the scheme in a field.
    TwoPerPart(u8),
    /// As many as a length field says.
    AsLength(u8),
    /// The fill of a format field.
    FillOf(u8),
}

/// The PIN of a message.
#[derive(Clone, Copy, Debug, PartialEq, Eq)]
pub enum PinSource {
    NoPin,
    /// The PIN of a block.
    BlockPin {
        block: u8,
        key: u8,
        format: u8,
        account: u8,
    },
    /// The PIN of a text under the LMK.
    LmkPin {
        text: u8,
        account: u8,
    },
    /// Clear digits.
    ClearPin {
        text: u8,
        account: u8,
    },
    /// A PIN to be drawn.
    DrawnPin {
        length: u8,
        account: u8,
    },
}

/// The fields of a MAC.
#[derive(Clone, Copy, Debug, PartialEq, Eq)]
pub struct MacFields {
    pub mode: u8,
    pub input: u8,
    pub size: u8,
    pub algorithm: u8,
    pub padding: u8,
    pub key: u8,
    pub chain: u8,
    pub message: u8,
}

/// The value of a message, which is written or compared.
#[derive(Clone, Copy, Debug, PartialEq, Eq)]
pub enum ValueSource {
    NoValue,
    PvvOf {
        pair: u8,
        index: u8,
    },
    /// A 3624 offset.
    OffsetOf {
        pvk: u8,
        table: u8,
        validation: u8,
        check: u8,
    },
    CvvOf {
        pair: u8,
        pan: u8,
        expiry: u8,
        service: u8,
    },
    MacOf(MacFields),
}

/// A check of the data.
#[derive(Clone, Copy, Debug, PartialEq, Eq)]
pub enum DataCheck {
    /// The decimalisation table, 25.
    TableCheck(u8),
    /// The PIN, 20, 24 or 14.
    PinCheck,
    /// A PIN longer than a length field, 24.
    LongerThan(u8),
    /// A PIN shorter than a length field, 24.
    ShorterThan(u8),
    /// MAC data, 80.
    MacCheck(MacFields),
}

/// What the row asks of the ledger.
#[derive(Clone, Copy, Debug, PartialEq, Eq)]
pub enum AskKind {
    UseAsk,
    LookAsk,
    RecentAsk,
    CancelAllAsk,
    AuthoriseAsk,
    CancelAsk,
}

/// The key that the row makes: its type, the scheme field under the LMK, and the scheme field under a wrapping key.
#[derive(Clone, Copy, Debug, PartialEq, Eq)]
pub struct Made {
    pub ty: TypeSource,
    pub scheme: u8,
    pub wrap_scheme: u8,
}

/// What a row asks beyond its forms.
#[derive(Clone, Copy, Debug, PartialEq, Eq)]
pub struct Rules {
    pub keys: &'static [KeyCheck],
    /// The acts whose permits it uses.
    pub acts: &'static [ActUse],
    /// The key whose neighbouring parts must differ.
    pub parts_differ: Option<Secret>,
    pub needs: &'static [FixedNeed],
    pub words: Words,
    pub made: Made,
    /// The components of the key that it makes.
    pub components: &'static [u8],
    pub pin: PinSource,
    pub value: ValueSource,
    pub checks: &'static [DataCheck],
    /// The field whose text must be the row's value.
    pub compared: Option<u8>,
    pub ask: AskKind,
    /// The reply fields that show a clear key or PIN.
    pub clear: &'static [u8],
}

/// The rules of the rows, by the row's name; several rows ask nothing, or only look at the ledger.
#[derive(Clone, Copy, Debug, PartialEq, Eq)]
pub enum RuleSet {
    Plain,
    Looks,
    A0,
    A6,
    A8,
    Bu,
    Ca,
    Cc,
    De,
    Dg,
    Da,
    Ea,
    Dc,
    Ec,
    Ba,
    Ng,
    Ja,
    Cw,
    Cy,
    M6,
    M8,
    Ra,
    A,
    C,
    Log,
    Gc,
    Fk,
}
