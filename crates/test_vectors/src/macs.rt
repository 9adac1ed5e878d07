// MACs of ISO 9797-1, whole and in parts. model/mac_values.py prints the values, from OpenSSL's DES.
use hsm_mac::{Alg, Mac, Pad, Uneven, whole};
use hsm_tdes::Key;
use std::test::Fail;

const FIRST: [u8; 8] = [0x01, 0x23, 0x45, 0x67, 0x89, 0xAB, 0xCD, 0xEF];

const SECOND: [u8; 8] = [0xFE, 0xDC, 0xBA, 0x98, 0x76, 0x54, 0x32, 0x10];

const ALL: &[u8] = b"Now is the time for all ";

const IT: &[u8] = b"Now is the time for it";

// A message, its padding, and its MACs of algorithms 1 and 3.
#[rattlefmt::skip]
const WHOLE: [(&[u8], Pad, u64, u64); 6] = [
    (ALL, Pad::Zeros, 0x70A3_0640_CC76_DD8B, 0xA1C7_2E74_EA3F_A9B6),
    (ALL, Pad::Bit, 0x10E1_F0F1_0834_1B6D, 0xE908_6230_CA3B_E796),
    (ALL, Pad::Length, 0x2C58_FB8F_F12A_AEAC, 0xAB05_9463_D7A7_D170),
    (IT, Pad::Zeros, 0xE45B_3AD2_B7CC_0856, 0x2E2B_1428_CC78_254F),
    (IT, Pad::Bit, 0xA924_C721_3614_9211, 0x5A69_2CE6_4F40_4145),
    (IT, Pad::Length, 0xB1EC_D6FC_8B37_C392, 0xC59F_7EED_328D_DD69),
];

// The MAC of a message in three parts, of which the second goes on from a chaining value.
fn in_parts(key: &Key, first: &[u8], second: &[u8], last: &[u8]) -> Result<u64, Uneven> {
    let mut mac = Mac::begin(key, Alg::One, 0);
    mac.update(first)?;
    let mut mac = Mac::begin(key, Alg::One, mac.chain());
    mac.update(second)?;
    mac.end(Pad::Zeros, last)
}

#[test]
fn macs(rt: HostRuntime) {
    let one = Key::one(&FIRST);
    let two = Key::two(&FIRST, &SECOND);
    for (message, pad, first, third) in WHOLE {
        assert_eq!(rt; whole(&one, Alg::One, pad, message), Ok(first));
        assert_eq!(rt; whole(&two, Alg::Three, pad, message), Ok(third));
    }
    let message = b"7654321 Now is the time for ";
    let expected = Ok(0xF1D3_0F68_4931_2CA4);
    assert_eq!(rt; whole(&one, Alg::One, Pad::Zeros, message), expected);
    let (first, second, last) = (&message[..16], &message[16..24], &message[24..]);
    assert_eq!(rt; in_parts(&one, first, second, last), expected);
    assert_eq!(rt; in_parts(&one, last, second, first), Err(Uneven));
}
