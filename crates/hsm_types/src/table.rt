//! The table of the key types.
ghost use Rattle.std.specs.Prelude.{◌≡◌, ◌<◌, ◌≤◌, ◌↔◌, Some, IsTrue};
ghost use Rattle.hsm_types.specs.KeyTypes.{same_type};
ghost use Rattle.hsm_types.specs.Table.{code_of, type_with, pair_of, variant_of, allows_length, permit_of, permits_at, table_permit, table_permits, permits_of};

use crate::types::{Act, KeyType, Permit, Permits, TypePermits};

/// The type whose code this is, in upper case. None where the table has no such code.
#[tactic(auto, unfolding(crate::specs::Table::type_with))]
pub fn by_code(code: &[u8; 3]) -> Option<KeyType>
    ensures value { result ≡ type_with code.now }
    ensures exact { (ty : KeyType) → (result ≡ Some ty) ↔ (code.now ≡ code_of ty) }
{
    match code {
        b"000" => Some(KeyType::Zmk),
        b"001" => Some(KeyType::Zpk),
        b"002" => Some(KeyType::Tpk),
        b"402" => Some(KeyType::Cvk),
        b"003" => Some(KeyType::Tak),
        b"008" => Some(KeyType::Zak),
        b"009" => Some(KeyType::Bdk),
        b"00A" => Some(KeyType::Zek),
        b"00B" => Some(KeyType::Dek),
        _ => None,
    }
}

/// The code of a type: a digit for its variant, then the code of its LMK pair.
pub fn code(ty: KeyType) -> [u8; 3]
    ensures { result ≡ code_of ty }
{
    match ty {
        KeyType::Zmk => *b"000",
        KeyType::Zpk => *b"001",
        KeyType::Tpk => *b"002",
        KeyType::Cvk => *b"402",
        KeyType::Tak => *b"003",
        KeyType::Zak => *b"008",
        KeyType::Bdk => *b"009",
        KeyType::Zek => *b"00A",
        KeyType::Dek => *b"00B",
    }
}

/// The number of the LMK pair that seals keys of a type, 0 to 19.
pub fn pair(ty: KeyType) -> usize
    ensures pair { result ≡ pair_of ty }
    ensures bound { result < 20 }
{
    match ty {
        KeyType::Zmk => 2,
        KeyType::Zpk => 3,
        KeyType::Tpk | KeyType::Cvk => 7,
        KeyType::Tak => 8,
        KeyType::Zak => 13,
        KeyType::Bdk => 14,
        KeyType::Zek => 15,
        KeyType::Dek => 16,
    }
}

/// The variant of its LMK pair that seals keys of a type, 0 to 9. Variant 0 changes nothing.
pub fn variant(ty: KeyType) -> u8
    ensures variant { result ≡ variant_of ty }
    ensures bound { result ≤ 9 }
{
    match ty {
        KeyType::Cvk => 4,
        _ => 0,
    }
}

/// Whether a key of the type may have so many parts.
pub fn length_allowed(ty: KeyType, parts: usize) -> bool
    ensures { result ≡ allows_length ty parts }
{
    match ty {
        KeyType::Zmk | KeyType::Bdk => parts == 2 || parts == 3,
        KeyType::Cvk => parts == 2,
        _ => (1..=3).contains(&parts),
    }
}

// The permits of one type.
const fn permits(generate: Permit, import: Permit, export: Permit) -> TypePermits
    ensures { result ≡ permits_of generate import export }
{
    TypePermits {
        generate,
        import,
        export,
    }
}

impl Permits {
    /// The permits that the table of key types has.
    pub fn table() -> Permits
        ensures value { result ≡ table_permits }
        ensures each { (ty : KeyType) (act : Act) → permit_of result ty act ≡ table_permit ty act }
    {
        use Permit::{A, N, Y};
        Permits {
            zmk: permits(A, A, N),
            zpk: permits(Y, Y, Y),
            tpk: permits(Y, Y, A),
            cvk: permits(Y, A, A),
            tak: permits(Y, Y, Y),
            zak: permits(Y, Y, Y),
            bdk: permits(Y, A, N),
            zek: permits(Y, A, A),
            dek: permits(Y, A, N),
        }
    }

    // The permits that are kept for a type.
    fn of_type(&self, ty: KeyType) -> TypePermits
        ensures { result ≡ permits_at self.now ty }
    {
        match ty {
            KeyType::Zmk => self.zmk,
            KeyType::Zpk => self.zpk,
            KeyType::Tpk => self.tpk,
            KeyType::Cvk => self.cvk,
            KeyType::Tak => self.tak,
            KeyType::Zak => self.zak,
            KeyType::Bdk => self.bdk,
            KeyType::Zek => self.zek,
            KeyType::Dek => self.dek,
        }
    }

    /// The permit that is kept for a type and an act.
    pub fn get(&self, ty: KeyType, act: Act) -> Permit
        ensures { result ≡ permit_of self.now ty act }
    {
        let permits = self.of_type(ty);
        match act {
            Act::Generate => permits.generate,
            Act::Import => permits.import,
            Act::Export => permits.export,
        }
    }
}

impl KeyType {
    /// Whether the two are the same type.
    pub fn is(self, other: KeyType) -> bool
        ensures value { result ≡ same_type self other }
        ensures equal { IsTrue result ↔ (self ≡ other) }
    {
        self == other
    }
}
