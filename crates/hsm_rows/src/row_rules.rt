//! What each row of the command table asks beyond its forms: one block a row, its fields by their names.

ghost use Rattle.std.specs.Prelude.{◌≡◌};
ghost use Rattle.hsm_rows.specs.Rules.{rules_shape, rules_in};

use super::fields::{a0, a6, a8, ba, bu, ca, cw, cy, da, dc, de, dg, fk, gc, ja, m6, ng};
use super::row::{Code, Secret};
use super::rules::{
    ActUse, AskKind, DataCheck, FixedNeed, KeyCheck, LengthRule, MacFields, Made, PinSource,
    RuleSet, Rules, TypeSource, Under, ValueSource, Words,
};
use hsm_auth::{Category, Place};
use hsm_types::{Act, KeyType};

// A key under the LMK, of any length that its type allows: field, type, the code of a part of even parity.
macro_rules! lmk_key {
    ($field:expr, $ty:expr, $parity:literal) => {
        KeyCheck::GivenKey { field: $field, under: Under::Lmk, ty: $ty, wraps: false, rule: LengthRule::AnyLength, parity: Code($parity) }
    };
}

// The same with a rule of length.
macro_rules! sized_key {
    ($field:expr, $ty:expr, $parity:literal, $rule:expr) => {
        KeyCheck::GivenKey { field: $field, under: Under::Lmk, ty: $ty, wraps: false, rule: $rule, parity: Code($parity) }
    };
}

// A key under the LMK that wraps another.
macro_rules! wrapping_key {
    ($field:expr, $ty:expr) => {
        KeyCheck::GivenKey { field: $field, under: Under::Lmk, ty: $ty, wraps: true, rule: LengthRule::AnyLength, parity: Code(10) }
    };
}

// A key of the type to be made, in the scheme of this field under the LMK and of that field under a wrapping key.
macro_rules! makes {
    ($ty:expr, $scheme:expr, $wrap:expr) => {
        Made { ty: $ty, scheme: $scheme, wrap_scheme: $wrap }
    };
}

const ZMK: TypeSource = TypeSource::Fixed(KeyType::Zmk);

const ZPK: TypeSource = TypeSource::Fixed(KeyType::Zpk);

const TPK: TypeSource = TypeSource::Fixed(KeyType::Tpk);

const CVK: TypeSource = TypeSource::Fixed(KeyType::Cvk);

// A row that asks nothing beyond its forms.
#[rattlefmt::skip]
const BARE: Rules = Rules {
    keys: &[], acts: &[], parts_differ: None, needs: &[], words: Words::NoWords, made: makes!(ZMK, 0, 0), components: &[],
    pin: PinSource::NoPin, value: ValueSource::NoValue, checks: &[], compared: None, ask: AskKind::UseAsk, clear: &[],
};

static PLAIN: Rules = BARE;

// ---- keys

// A0 draws a key.
#[rattlefmt::skip]
static A0: Rules = Rules {
    keys: &[KeyCheck::Target { ty: TypeSource::Named(a0::TYPE), scheme: a0::SCHEME, second: Some(a0::KEK_SCHEME) },
        wrapping_key!(a0::KEK, TypeSource::WrapperType(a0::WRAPPER))],
    acts: &[ActUse { act: Act::Generate, ty: TypeSource::Named(a0::TYPE), where_present: None },
        ActUse { act: Act::Export, ty: TypeSource::Named(a0::TYPE), where_present: Some(a0::KEK_SCHEME) }],
    words: Words::TwoPerPart(a0::SCHEME),
    made: makes!(TypeSource::Named(a0::TYPE), a0::SCHEME, a0::KEK_SCHEME),
    ..BARE
};

// A6 imports a key.
#[rattlefmt::skip]
static A6: Rules = Rules {
    keys: &[wrapping_key!(a6::ZMK, ZMK),
        KeyCheck::GivenKey { field: a6::KEY, under: Under::KeyAt(a6::ZMK), ty: TypeSource::Named(a6::TYPE), wraps: false,
            rule: LengthRule::AsScheme(a6::SCHEME), parity: Code(11) }],
    acts: &[ActUse { act: Act::Import, ty: TypeSource::Named(a6::TYPE), where_present: None }],
    parts_differ: Some(Secret::OpenedUnder { field: a6::KEY, kek: a6::ZMK }),
    made: makes!(TypeSource::Named(a6::TYPE), a6::SCHEME, 0),
    ..BARE
};

// A8 exports a key.
#[rattlefmt::skip]
static A8: Rules = Rules {
    keys: &[wrapping_key!(a8::KEK, TypeSource::WrapperType(a8::WRAPPER)),
        sized_key!(a8::KEY, TypeSource::Named(a8::TYPE), 11, LengthRule::AsScheme(a8::KEK_SCHEME))],
    acts: &[ActUse { act: Act::Export, ty: TypeSource::Named(a8::TYPE), where_present: None }],
    parts_differ: Some(Secret::Opened(a8::KEY)),
    made: makes!(TypeSource::Named(a8::TYPE), 0, a8::KEK_SCHEME),
    ..BARE
};

// BU gives the check value of a key.
#[rattlefmt::skip]
static BU: Rules = Rules {
    keys: &[sized_key!(bu::KEY, TypeSource::ByPair { pair: bu::PAIR_CODE, full: bu::TYPE }, 10, LengthRule::FlagPlusOne(bu::FLAG))],
    ..BARE
};

// ---- PINs

// CA and CC translate a PIN block, from a key of this type.
#[rattlefmt::skip]
macro_rules! translates {
    ($ty:expr) => {
        Rules {
            keys: &[lmk_key!(ca::KEY, $ty, 10), lmk_key!(ca::ZPK, ZPK, 11)],
            words: Words::FillOf(ca::SECOND_FORMAT),
            pin: PinSource::BlockPin { block: ca::BLOCK, key: ca::KEY, format: ca::FORMAT, account: ca::ACCOUNT },
            checks: &[DataCheck::PinCheck, DataCheck::LongerThan(ca::MAX_LENGTH)],
            ..BARE
        }
    };
}

static CA: Rules = translates!(TPK);

static CC: Rules = translates!(ZPK);

// DE makes an offset.
#[rattlefmt::skip]
static DE: Rules = Rules {
    keys: &[lmk_key!(de::PVK, TPK, 10)],
    pin: PinSource::LmkPin { text: de::PIN, account: de::ACCOUNT },
    value: ValueSource::OffsetOf { pvk: de::PVK, table: de::TABLE, validation: de::VALIDATION, check: de::CHECK_LENGTH },
    checks: &[DataCheck::TableCheck(de::TABLE), DataCheck::PinCheck, DataCheck::ShorterThan(de::CHECK_LENGTH)],
    ..BARE
};

// DG makes a PVV.
#[rattlefmt::skip]
static DG: Rules = Rules {
    keys: &[lmk_key!(dg::PVK_PAIR, TPK, 10)],
    pin: PinSource::LmkPin { text: dg::PIN, account: dg::ACCOUNT },
    value: ValueSource::PvvOf { pair: dg::PVK_PAIR, index: dg::INDEX },
    checks: &[DataCheck::PinCheck],
    ..BARE
};

// DA and EA verify a PIN by an offset, from a key of this type.
#[rattlefmt::skip]
macro_rules! verifies_offset {
    ($ty:expr) => {
        Rules {
            keys: &[lmk_key!(da::KEY, $ty, 10), lmk_key!(da::PVK, TPK, 11)],
            pin: PinSource::BlockPin { block: da::BLOCK, key: da::KEY, format: da::FORMAT, account: da::ACCOUNT },
            value: ValueSource::OffsetOf { pvk: da::PVK, table: da::TABLE, validation: da::VALIDATION, check: da::CHECK_LENGTH },
            checks: &[DataCheck::TableCheck(da::TABLE), DataCheck::PinCheck, DataCheck::LongerThan(da::MAX_LENGTH),
                DataCheck::ShorterThan(da::CHECK_LENGTH)],
            compared: Some(da::OFFSET),
            ..BARE
        }
    };
}

static DA: Rules = verifies_offset!(TPK);

static EA: Rules = verifies_offset!(ZPK);

// DC and EC verify a PIN by a PVV, from a key of this type.
#[rattlefmt::skip]
macro_rules! verifies_pvv {
    ($ty:expr) => {
        Rules {
            keys: &[lmk_key!(dc::KEY, $ty, 10), lmk_key!(dc::PVK_PAIR, TPK, 11)],
            pin: PinSource::BlockPin { block: dc::BLOCK, key: dc::KEY, format: dc::FORMAT, account: dc::ACCOUNT },
            value: ValueSource::PvvOf { pair: dc::PVK_PAIR, index: dc::INDEX },
            checks: &[DataCheck::PinCheck],
            compared: Some(dc::PVV),
            ..BARE
        }
    };
}

static DC: Rules = verifies_pvv!(TPK);

static EC: Rules = verifies_pvv!(ZPK);

// Clear PINs at a host.
const PIN_CLEAR: FixedNeed = FixedNeed {
    category: Category::PinClear,
    ty: None,
    place: Place::Host,
};

// BA seals a clear PIN.
#[rattlefmt::skip]
static BA: Rules = Rules {
    needs: &[PIN_CLEAR],
    pin: PinSource::ClearPin { text: ba::PIN, account: ba::ACCOUNT },
    checks: &[DataCheck::PinCheck],
    ..BARE
};

// NG shows a PIN.
#[rattlefmt::skip]
static NG: Rules = Rules {
    needs: &[PIN_CLEAR],
    pin: PinSource::LmkPin { text: ng::PIN, account: ng::ACCOUNT },
    checks: &[DataCheck::PinCheck],
    clear: &[0],
    ..BARE
};

// JA draws a PIN.
#[rattlefmt::skip]
static JA: Rules = Rules {
    words: Words::AsLength(ja::LENGTH),
    pin: PinSource::DrawnPin { length: ja::LENGTH, account: ja::ACCOUNT },
    ..BARE
};

// ---- cards and MACs

// CW makes a CVV.
#[rattlefmt::skip]
static CW: Rules = Rules {
    keys: &[lmk_key!(cw::CVK_PAIR, CVK, 10)],
    value: ValueSource::CvvOf { pair: cw::CVK_PAIR, pan: cw::PAN, expiry: cw::EXPIRY, service: cw::SERVICE },
    ..BARE
};

// CY verifies a CVV.
#[rattlefmt::skip]
static CY: Rules = Rules {
    keys: &[lmk_key!(cy::CVK_PAIR, CVK, 10)],
    value: ValueSource::CvvOf { pair: cy::CVK_PAIR, pan: cy::PAN, expiry: cy::EXPIRY, service: cy::SERVICE },
    compared: Some(cy::CVV),
    ..BARE
};

#[rattlefmt::skip]
const MAC_FIELDS: MacFields = MacFields {
    mode: m6::MODE, input: m6::INPUT, size: m6::SIZE, algorithm: m6::ALGORITHM, padding: m6::PADDING, key: m6::KEY, chain: m6::CHAIN,
    message: m6::DATA,
};

// M6 makes a MAC.
#[rattlefmt::skip]
const MAC_RULES: Rules = Rules {
    keys: &[sized_key!(m6::KEY, TypeSource::Named(m6::TYPE), 10, LengthRule::TwoForAlgorithmThree(m6::ALGORITHM))],
    value: ValueSource::MacOf(MAC_FIELDS),
    checks: &[DataCheck::MacCheck(MAC_FIELDS)],
    ..BARE
};

static M6: Rules = MAC_RULES;

// M8 compares it with the MAC after the data.
static M8: Rules = Rules {
    compared: Some(m6::MAC),
    ..MAC_RULES
};

// ---- the ledger

// NO, VA and Q look.
static LOOKS: Rules = Rules {
    ask: AskKind::LookAsk,
    ..BARE
};

// RA cancels all grants.
static RA: Rules = Rules {
    ask: AskKind::CancelAllAsk,
    ..BARE
};

// A authorises.
static A: Rules = Rules {
    ask: AskKind::AuthoriseAsk,
    ..BARE
};

// C cancels.
static C: Rules = Rules {
    ask: AskKind::CancelAsk,
    ..BARE
};

// LOG looks at the last notes.
static LOG: Rules = Rules {
    ask: AskKind::RecentAsk,
    ..BARE
};

// ---- components

// GC draws a component.
#[rattlefmt::skip]
static GC: Rules = Rules {
    keys: &[KeyCheck::Target { ty: TypeSource::Named(gc::TYPE), scheme: gc::SCHEME, second: None }],
    needs: &[FixedNeed { category: Category::Component, ty: Some(TypeSource::Named(gc::TYPE)), place: Place::Console }],
    words: Words::TwoPerPart(gc::SCHEME),
    made: makes!(TypeSource::Named(gc::TYPE), gc::SCHEME, 0),
    clear: &[0],
    ..BARE
};

// FK forms a key from components.
#[rattlefmt::skip]
static FK: Rules = Rules {
    keys: &[KeyCheck::Target { ty: TypeSource::Named(fk::TYPE), scheme: fk::SCHEME, second: None }],
    parts_differ: Some(Secret::Joined),
    needs: &[FixedNeed { category: Category::Component, ty: Some(TypeSource::Named(fk::TYPE)), place: Place::Console }],
    made: makes!(TypeSource::Named(fk::TYPE), fk::SCHEME, 0),
    components: &[fk::FIRST, fk::SECOND, fk::THIRD],
    ..BARE
};

impl RuleSet {
    /// What the rows of this name ask beyond their forms.
    pub fn rules(self) -> &'static Rules
        ensures { rules_shape result.now ≡ rules_in self }
    {
        match self {
            RuleSet::Plain => &PLAIN,
            RuleSet::Looks => &LOOKS,
            RuleSet::A0 => &A0,
            RuleSet::A6 => &A6,
            RuleSet::A8 => &A8,
            RuleSet::Bu => &BU,
            RuleSet::Ca => &CA,
            RuleSet::Cc => &CC,
            RuleSet::De => &DE,
            RuleSet::Dg => &DG,
            RuleSet::Da => &DA,
            RuleSet::Ea => &EA,
            RuleSet::Dc => &DC,
            RuleSet::Ec => &EC,
            RuleSet::Ba => &BA,
            RuleSet::Ng => &NG,
            RuleSet::Ja => &JA,
            RuleSet::Cw => &CW,
            RuleSet::Cy => &CY,
            RuleSet::M6 => &M6,
            RuleSet::M8 => &M8,
            RuleSet::Ra => &RA,
            RuleSet::A => &A,
            RuleSet::C => &C,
            RuleSet::Log => &LOG,
            RuleSet::Gc => &GC,
            RuleSet::Fk => &FK,
        }
    }
}
