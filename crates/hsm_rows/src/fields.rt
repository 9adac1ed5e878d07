//! The fields of the rows by name, numbered in their order. EA has the fields of DA, EC those of DC, CC those of CA, and
//! M8 those of M6 and one more.

#[rattlefmt::skip]
pub mod a0 {
    pub const MODE: u8 = 0; pub const TYPE: u8 = 1; pub const SCHEME: u8 = 2; pub const WRAPPER: u8 = 3; pub const KEK: u8 = 4;
    pub const KEK_SCHEME: u8 = 5;
}

#[rattlefmt::skip]
pub mod a6 {
    pub const TYPE: u8 = 0; pub const ZMK: u8 = 1; pub const KEY: u8 = 2; pub const SCHEME: u8 = 3;
}

#[rattlefmt::skip]
pub mod a8 {
    pub const TYPE: u8 = 0; pub const WRAPPER: u8 = 1; pub const KEK: u8 = 2; pub const KEY: u8 = 3; pub const KEK_SCHEME: u8 = 4;
}

#[rattlefmt::skip]
pub mod bu {
    pub const PAIR_CODE: u8 = 0; pub const FLAG: u8 = 1; pub const KEY: u8 = 2; pub const SEMICOLON: u8 = 3; pub const TYPE: u8 = 4;
}

#[rattlefmt::skip]
pub mod ca {
    pub const KEY: u8 = 0; pub const ZPK: u8 = 1; pub const MAX_LENGTH: u8 = 2; pub const BLOCK: u8 = 3; pub const FORMAT: u8 = 4;
    pub const SECOND_FORMAT: u8 = 5; pub const ACCOUNT: u8 = 6;
}

#[rattlefmt::skip]
pub mod de {
    pub const PVK: u8 = 0; pub const PIN: u8 = 1; pub const CHECK_LENGTH: u8 = 2; pub const ACCOUNT: u8 = 3; pub const TABLE: u8 = 4;
    pub const VALIDATION: u8 = 5;
}

#[rattlefmt::skip]
pub mod dg {
    pub const PVK_PAIR: u8 = 0; pub const PIN: u8 = 1; pub const ACCOUNT: u8 = 2; pub const INDEX: u8 = 3;
}

#[rattlefmt::skip]
pub mod da {
    pub const KEY: u8 = 0; pub const PVK: u8 = 1; pub const MAX_LENGTH: u8 = 2; pub const BLOCK: u8 = 3; pub const FORMAT: u8 = 4;
    pub const CHECK_LENGTH: u8 = 5; pub const ACCOUNT: u8 = 6; pub const TABLE: u8 = 7; pub const VALIDATION: u8 = 8; pub const OFFSET: u8 = 9;
}

#[rattlefmt::skip]
pub mod dc {
    pub const KEY: u8 = 0; pub const PVK_PAIR: u8 = 1; pub const BLOCK: u8 = 2; pub const FORMAT: u8 = 3; pub const ACCOUNT: u8 = 4;
    pub const INDEX: u8 = 5; pub const PVV: u8 = 6;
}

#[rattlefmt::skip]
pub mod ba {
    pub const PIN: u8 = 0; pub const ACCOUNT: u8 = 1;
}

#[rattlefmt::skip]
pub mod ng {
    pub const ACCOUNT: u8 = 0; pub const PIN: u8 = 1;
}

#[rattlefmt::skip]
pub mod ja {
    pub const ACCOUNT: u8 = 0; pub const LENGTH: u8 = 1;
}

#[rattlefmt::skip]
pub mod cw {
    pub const CVK_PAIR: u8 = 0; pub const PAN: u8 = 1; pub const EXPIRY: u8 = 2; pub const SERVICE: u8 = 3;
}

#[rattlefmt::skip]
pub mod cy {
    pub const CVK_PAIR: u8 = 0; pub const CVV: u8 = 1; pub const PAN: u8 = 2; pub const EXPIRY: u8 = 3; pub const SERVICE: u8 = 4;
}

#[rattlefmt::skip]
pub mod m6 {
    pub const MODE: u8 = 0; pub const INPUT: u8 = 1; pub const SIZE: u8 = 2; pub const ALGORITHM: u8 = 3; pub const PADDING: u8 = 4;
    pub const TYPE: u8 = 5; pub const KEY: u8 = 6; pub const CHAIN: u8 = 7; pub const COUNT: u8 = 8; pub const DATA: u8 = 9; pub const MAC: u8 = 10;
}

#[rattlefmt::skip]
pub mod b2 {
    pub const COUNT: u8 = 0; pub const DATA: u8 = 1;
}

#[rattlefmt::skip]
pub mod gc {
    pub const TYPE: u8 = 0; pub const SCHEME: u8 = 1;
}

#[rattlefmt::skip]
pub mod fk {
    pub const TYPE: u8 = 0; pub const SCHEME: u8 = 1; pub const FIRST: u8 = 2; pub const SECOND: u8 = 3; pub const THIRD: u8 = 4;
}
