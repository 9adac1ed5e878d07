//! What a row of the command table is made of.
ghost use Rattle.std.specs.Prelude.{◌≡◌};
ghost use Rattle.hsm_rows.specs.Texts.{two_digits};

use super::rules::RuleSet;

/// A two-digit code. 00 is no refusal.
#[derive(Clone, Copy, Debug, Default, PartialEq, Eq)]
pub struct Code(pub u8);

impl Code {
    /// The two decimal digits of a code below 100.
    pub fn digits(self) -> [u8; 2]
        ensures { result ≡ two_digits self.0 }
    {
        [b'0' + self.0 / 10, b'0' + self.0 % 10]
    }
}

/// The form of a field. A number is the position of the earlier field that the form looks at, counted from 0.
/// A form whose comment begins with a mode or with FF is of no bytes unless that field says so.
#[derive(Clone, Copy, Debug, PartialEq, Eq)]
pub enum Form {
    /// `1N`: a decimal digit.
    Digits1,
    /// `3N`
    Digits3,
    /// `4N`
    Digits4,
    /// `12N`
    Digits12,
    /// `16N`
    Digits16,
    /// `16H`: 16 hexadecimal digits of either case.
    Hex16,
    /// `K`: a key text of scheme Z, U or T; untagged are 16 digits.
    Key,
    /// `P`: 32 hexadecimal digits, or U and 32.
    Pair,
    /// `W`: a key text of scheme Z, U, T, X or Y; untagged are 16 digits.
    WrappedKey,
    /// `KF`: a key text of scheme Z, U or T; untagged are 16 digits where the flag is 0, 32 where it is 1.
    KeyByFlag(u8),
    /// `type`: the code of a key type.
    KeyType,
    /// `mactype`: 003 or 008.
    MacType,
    /// `type2`: FF, or the code of an LMK pair.
    Type2,
    /// `flag`: 0, 1 or 2.
    Flag,
    /// `scheme`: Z, U or T.
    Scheme,
    /// `wscheme`: Z, U, T, X or Y.
    WrapScheme,
    /// `format`: 01, 03, 05 or 47.
    Format,
    /// `len`: 04 to 12.
    Length,
    /// `[;f]`: nothing where no `;` follows, else `;0` for a ZMK or `;1` for a TMK.
    Wrapper,
    /// `pan`: 12 to 19 decimal digits and `;`.
    Account,
    /// `12F`: 12 characters, digits and then F to the end.
    ClearPin,
    /// `offs`: 12 characters, as many digits as the length says and then F to the end.
    Offset(u8),
    /// `12V`: 12 characters, 11 hexadecimal digits and one N.
    Validation,
    /// `0to1`
    ZeroToOne,
    /// `0to2`
    ZeroToTwo,
    /// `0to3`
    ZeroToThree,
    /// `1or3`
    OneOrThree,
    /// `count`: 4 hexadecimal digits.
    Count,
    /// `data`: as many bytes as the count before it says.
    Data,
    /// `data`: as `Data`; where the input is 1 an even number of hexadecimal digits.
    DataByInput(u8),
    /// `mode03:mac`: in the modes 0 and 3, 8 hexadecimal digits where the size is 0, else 16.
    Mode03Mac(u8),
    /// `00`
    TwoZeros,
    /// `FF:;`: where the type is FF, `;`.
    FfSemicolon(u8),
    /// `FF:type`: where the type is FF, the code of a key type.
    FfType(u8),
    /// `mode1:[;f]`
    Mode1Wrapper,
    /// `mode1:K`
    Mode1Key,
    /// `mode1:wscheme`
    Mode1WrapScheme,
    /// `mode23:16H`
    Mode23Chain,
    /// `comp`: 16 hexadecimal digits for each part of the scheme.
    Component(u8),
    /// `[comp]`: as `Component`, and left out at the end of the text and before a space and `%`.
    LastComponent(u8),
    /// `[%nn]`: `%` and the two digits of an LMK set, and left out at the end of the text.
    SetNumber,
    /// `act`: an activity.
    Act,
    /// `act*`: an activity or `*`.
    ActOrAll,
    /// `min`: the minutes of a grant, without leading zeros.
    Minutes,
    /// `word`: 1 to 64 visible characters.
    Word,
}

/// A clear key that a row works with. Numbers are positions of fields, counted from 0.
#[derive(Clone, Copy, Debug, PartialEq, Eq)]
pub enum Secret {
    /// The key of a field, opened under an LMK pair.
    Opened(u8),
    /// The key of a field, opened under the key of the field `kek`.
    OpenedUnder { field: u8, kek: u8 },
    /// The key that is drawn.
    DrawnKey,
    /// The key that is joined from components.
    Joined,
}

/// A field of a reply. Numbers are positions of the message's fields, counted from 0.
#[derive(Clone, Copy, Debug, PartialEq, Eq)]
pub enum Public {
    /// The text of a field.
    Given(u8),
    Fixed(&'static str),
    /// A key under the LMK.
    Sealed(Secret),
    /// A key under the key of the field `kek`, where that is present.
    SealedUnder { secret: Secret, kek: u8 },
    CheckValue(Secret),
    /// The row's PIN under the LMK.
    SealedPin,
    /// The block of the row's PIN in the format that the field `format` names, under the key of the field `key`.
    BlockUnder { format: u8, key: u8 },
    /// The number of digits of the row's PIN.
    PinLength,
    /// The row's value: a PVV, an offset, a CVV or a MAC.
    Value,
    /// The chaining value of a MAC.
    Chain,
    LmkCheck,
    /// The number of live grants.
    LiveGrants,
    /// The number of host lanes.
    Hosts,
    /// Nothing: an authorisation is done.
    Done,
    /// The number of grants that were cancelled.
    Cancelled,
    /// The live grants.
    Grants,
    /// Moment, random place and number of live grants.
    Numbers,
    /// The last notes.
    Notes,
    /// A clear key.
    ShowKey(Secret),
    /// The row's PIN in the clear.
    ShowPin,
}

/// A field of a message: its form, and the code of a message in which no text of the form stands there.
#[derive(Clone, Copy, Debug, PartialEq, Eq)]
pub struct Field {
    pub form: Form,
    pub code: Code,
}

/// A row of the command table. A host row has a command code and a reply code of two characters;
/// a console row has a word, and an empty reply code.
#[derive(Clone, Copy, Debug, PartialEq, Eq)]
pub struct Row {
    pub code: &'static [u8],
    pub reply: &'static [u8],
    pub fields: &'static [Field],
    pub terms: &'static [Public],
    /// What it asks beyond its forms.
    pub rules: RuleSet,
}
