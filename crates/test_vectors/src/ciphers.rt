// Parity, DES and TDEA.
use hsm_des::laws::{encrypt_by_permutations, encrypt_plain};
use hsm_des::{Schedule, decrypt, encrypt};
use hsm_parity::adjust;
use hsm_tdes::{Key, Prepared, check_value, decipher, encipher};
use std::test::Fail;

// Key, block and enciphered block.
#[rattlefmt::skip]
const BLOCKS: [(u64, u64, u64); 3] = [
    (0x1334_5779_9BBC_DFF1, 0x0123_4567_89AB_CDEF, 0x85E8_1354_0F0A_B405),
    (0x0123_4567_89AB_CDEF, 0x4E6F_7720_6973_2074, 0x3FA4_0E8A_984D_4815),
    (0x0101_0101_0101_0101, 0x0000_0000_0000_0000, 0x8CA6_4DE9_C1B1_23A7),
];

// The vectors, and a chain of blocks on which the three forms of encipherment agree.
#[test]
fn des(rt: HostRuntime) {
    for (key, block, enciphered) in BLOCKS {
        let schedule = Schedule::new(key.to_be_bytes());
        assert_eq!(rt; encrypt(&schedule, block), enciphered);
        assert_eq!(rt; decrypt(&schedule, enciphered), block);
    }
    let key = 0x1334_5779_9BBC_DFF1u64.to_be_bytes();
    let schedule = Schedule::new(key);
    let mut block = 0;
    for _ in 0..10_000u32 {
        let next = encrypt(&schedule, block);
        assert_eq!(rt; encrypt_by_permutations(key, block), next);
        assert_eq!(rt; encrypt_plain(key, block), next);
        block = next;
    }
}

// The example of NIST SP 800-67 for three parts; check values of keys of one and two parts; a part made odd.
#[test]
fn tdea(rt: HostRuntime) -> Result<(), Fail> {
    let first = 0x0123_4567_89AB_CDEFu64.to_be_bytes();
    let second = 0xFEDC_BA98_7654_3210u64.to_be_bytes();
    let key = Key::of(&[
        0x01, 0x23, 0x45, 0x67, 0x89, 0xAB, 0xCD, 0xEF, 0x23, 0x45, 0x67, 0x89, 0xAB, 0xCD, 0xEF,
        0x01, 0x45, 0x67, 0x89, 0xAB, 0xCD, 0xEF, 0x01, 0x23,
    ])
    .ok_or("no key")?;
    let prepared = Prepared::of(&key);
    for (text, expected) in [
        (*b"The qufc", 0xA826_FD8C_E53B_855F),
        (*b"k brown ", 0xCCE2_1C81_1225_6FE6),
        (*b"fox jump", 0x68D5_C05D_D9B6_B900),
    ] {
        let block = u64::from_be_bytes(text);
        assert_eq!(rt; encipher(&key, block), expected);
        assert_eq!(rt; decipher(&key, expected), block);
        assert_eq!(rt; prepared.encipher(block), expected);
        assert_eq!(rt; prepared.decipher(expected), block);
    }
    assert_eq!(rt; check_value(&Key::one(&first)), *b"D5D44F");
    assert_eq!(rt; check_value(&Key::two(&first, &second)), *b"08D7B4");
    assert_eq!(rt;
        adjust(0x76B8_E0AD_A0F1_3D90u64.to_be_bytes()),
        0x76B9_E0AD_A1F1_3D91u64.to_be_bytes()
    );
    Ok(())
}
