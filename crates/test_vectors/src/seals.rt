// Keys under LMK pairs and wrapping keys.
use hsm_lmk::{LmkSet, open, open_under, seal, seal_under};
use hsm_parity::adjusted_byte;
use hsm_tdes::Key;
use hsm_types::{KeyType, Scheme};
use std::test::Fail;

const FIRST: [u8; 8] = [0x01, 0x23, 0x45, 0x67, 0x89, 0xAB, 0xCD, 0xEF];

const SECOND: [u8; 8] = [0xFE, 0xDC, 0xBA, 0x98, 0x76, 0x54, 0x32, 0x10];

// The pairs of which pair k has 8 bytes of 32 + 2k, then 8 of 96 + 2k, all made odd.
fn counted_pairs() -> [[u8; 16]; 20] {
    let mut pairs = [[0; 16]; 20];
    for k in 0..20 {
        let even = 2 * k as u8;
        pairs[k][..8].copy_from_slice(&[adjusted_byte(32 + even); 8]);
        pairs[k][8..].copy_from_slice(&[adjusted_byte(96 + even); 8]);
    }
    pairs
}

// The texts of schemes U, T and Y are those of model/sealed_texts.py, which calls OpenSSL.
#[test]
fn texts(rt: HostRuntime) -> Result<(), Fail> {
    let pair = [
        0x13, 0x34, 0x57, 0x79, 0x9B, 0xBC, 0xDF, 0xF1, 0x13, 0x34, 0x57, 0x79, 0x9B, 0xBC, 0xDF,
        0xF1,
    ];
    let same = LmkSet::of(&[pair; 20]).ok().ok_or("parity")?;
    let one = Key::one(&FIRST);
    let mut short = [0; 8];
    seal(&same, KeyType::Zpk, Scheme::Z, &one, &mut short);
    assert_eq!(rt; short, 0x85E8_1354_0F0A_B405u64.to_be_bytes());
    assert_eq!(rt; open(&same, KeyType::Zpk, Scheme::Z, &short), Ok(one));

    let set = LmkSet::of(&counted_pairs()).ok().ok_or("parity")?;
    let two = Key::two(&FIRST, &SECOND);
    let mut text = [0; 16];
    seal(&set, KeyType::Cvk, Scheme::U, &two, &mut text);
    assert_eq!(rt;
        text,
        [
            0x93, 0x43, 0x38, 0x18, 0xF0, 0xFC, 0x14, 0x2D, 0x7D, 0xDA, 0x7B, 0x0C, 0xFF, 0xEF,
            0x28, 0xD2,
        ]
    );
    assert_eq!(rt; open(&set, KeyType::Cvk, Scheme::U, &text), Ok(two));

    let three = Key::three(
        &FIRST,
        &[0x23, 0x45, 0x67, 0x89, 0xAB, 0xCD, 0xEF, 0x01],
        &[0x45, 0x67, 0x89, 0xAB, 0xCD, 0xEF, 0x01, 0x23],
    );
    let mut long = [0; 24];
    seal(&set, KeyType::Zpk, Scheme::T, &three, &mut long);
    assert_eq!(rt;
        long,
        [
            0x97, 0x13, 0x2A, 0xBE, 0xB6, 0x28, 0x99, 0xB4, 0xEC, 0xDA, 0x4C, 0x61, 0x6C, 0x10,
            0x47, 0xEB, 0xC7, 0x47, 0x42, 0x34, 0x9A, 0x5F, 0x79, 0xCE,
        ]
    );
    seal_under(&two, Scheme::Y, &three, &mut long);
    assert_eq!(rt;
        long,
        [
            0x1A, 0x4D, 0x67, 0x2D, 0xCA, 0x6C, 0xB3, 0x35, 0x38, 0x84, 0xBF, 0x7E, 0x7A, 0xD7,
            0xA2, 0xDE, 0x11, 0x7A, 0xF4, 0x16, 0x7F, 0x1A, 0xAA, 0x2C,
        ]
    );
    assert_eq!(rt; open_under(&two, Scheme::Y, &long), Ok(three));
    Ok(())
}
