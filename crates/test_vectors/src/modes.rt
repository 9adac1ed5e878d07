// ECB and CBC, block by block, in lists and in parts. model/mode_rows.py prints the values, from OpenSSL's ciphers.
use hsm_modes::{Cipher, Dir, Mode};
use hsm_tdes::Key;
use std::test::Fail;

const FIRST: [u8; 8] = [0x01, 0x23, 0x45, 0x67, 0x89, 0xAB, 0xCD, 0xEF];

const SECOND: [u8; 8] = [0xFE, 0xDC, 0xBA, 0x98, 0x76, 0x54, 0x32, 0x10];

const THREE: [u8; 24] = [
    0x01, 0x23, 0x45, 0x67, 0x89, 0xAB, 0xCD, 0xEF, 0x23, 0x45, 0x67, 0x89, 0xAB, 0xCD, 0xEF, 0x01,
    0x45, 0x67, 0x89, 0xAB, 0xCD, 0xEF, 0x01, 0x23,
];

const CHAIN: u64 = 0x1234_5678_90AB_CDEF;

// "Now is the time for all good men to come"
#[rattlefmt::skip]
const CLEAR: [u64; 5] =
    [0x4E6F_7720_6973_2074, 0x6865_2074_696D_6520, 0x666F_7220_616C_6C20, 0x676F_6F64_206D_656E, 0x2074_6F20_636F_6D65];

// The mode, and the message enciphered under the key of one part, of two and of three.
#[rattlefmt::skip]
const SECRET: [(Mode, [[u64; 5]; 3]); 2] = [
    (Mode::Ecb, [
        [0x3FA4_0E8A_984D_4815, 0x6A27_1787_AB88_83F9, 0x893D_51EC_4B56_3B53, 0x73C1_ADB2_171F_7894, 0x37A5_E247_1908_96C7],
        [0xD80A_0D8B_2BAE_5E4E, 0x6A00_9417_1ABC_FC27, 0x75D2_235A_706E_232C, 0x41B6_37F9_AB83_FFD4, 0x926E_EBDD_304A_D3F2],
        [0x314F_8327_FA7A_09A8, 0x4362_760C_C13B_A7DA, 0xFF55_C5F8_0FAA_AC45, 0x923A_F534_4EAF_B3C2, 0xA7BA_2DCA_9045_BAA9],
    ]),
    (Mode::Cbc, [
        [0xE5C7_CDDE_872B_F27C, 0x43E9_3400_8C38_9C0F, 0x6837_8849_9A7C_05F6, 0xF11A_C161_78C4_AF21, 0xAFFC_84EB_ACCC_489A],
        [0xF85D_4AB9_2066_789E, 0x1D04_3067_1F28_AE7A, 0xB962_7D35_385D_2E24, 0xDF86_01C5_89C2_8436, 0x3B6C_4AD8_EE23_2369],
        [0xF3C0_FF02_6C02_3089, 0x656F_BB16_9DEF_7EDB, 0x30BA_3607_5D6F_0176, 0x15C8_2AD9_3FCA_176C, 0xFC9F_49E8_A899_C2B6],
    ]),
];

// What the blocks become one after another, with the last chaining value.
fn one_by_one(key: &Key, mode: Mode, dir: Dir, mut blocks: [u64; 5]) -> ([u64; 5], u64) {
    let mut cipher = Cipher::begin(key, mode, dir, CHAIN);
    for i in 0..5 {
        blocks[i] = cipher.block(blocks[i]);
    }
    (blocks, cipher.chain())
}

// What they become as one list.
fn at_once(key: &Key, mode: Mode, dir: Dir, mut blocks: [u64; 5]) -> ([u64; 5], u64) {
    let mut cipher = Cipher::begin(key, mode, dir, CHAIN);
    cipher.blocks(&mut blocks);
    (blocks, cipher.chain())
}

// What they become as lists of two and three, the second from the chaining value after the first, and none between.
fn in_parts(key: &Key, mode: Mode, dir: Dir, mut blocks: [u64; 5]) -> ([u64; 5], u64) {
    let mut first = Cipher::begin(key, mode, dir, CHAIN);
    first.blocks(&mut blocks[..2]);
    first.blocks(&mut []);
    let mut second = Cipher::begin(key, mode, dir, first.chain());
    second.blocks(&mut blocks[2..]);
    (blocks, second.chain())
}

#[test]
fn modes(rt: HostRuntime) -> Result<(), Fail> {
    let keys = [
        Key::one(&FIRST),
        Key::two(&FIRST, &SECOND),
        Key::of(&THREE).ok_or("no key")?,
    ];
    for (mode, secrets) in SECRET {
        for (key, secret) in keys.into_iter().zip(secrets) {
            let chain = if mode == Mode::Cbc { secret[4] } else { CHAIN };
            for (dir, from, to) in [(Dir::Encrypt, CLEAR, secret), (Dir::Decrypt, secret, CLEAR)] {
                assert_eq!(rt; one_by_one(&key, mode, dir, from), (to, chain));
                assert_eq!(rt; at_once(&key, mode, dir, from), (to, chain));
                assert_eq!(rt; in_parts(&key, mode, dir, from), (to, chain));
            }
        }
    }
    Ok(())
}
