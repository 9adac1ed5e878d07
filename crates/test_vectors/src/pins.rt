// PIN blocks, and the values that verify PINs and cards.
use hsm_pinblock::{BlockFault, Format, build, read};
use hsm_tdes::Key;
use hsm_types::Pin;
use hsm_verify::{cvv, natural_pin, offset, pvv, select, table_ok};
use std::test::Fail;

const ACCOUNT: [u8; 12] = [1, 2, 3, 4, 5, 6, 7, 8, 9, 0, 1, 2];

// The PIN 1234 in each format, and blocks with a fault.
#[test]
fn blocks(rt: HostRuntime) -> Result<(), Fail> {
    let pin = Pin::of(&[1, 2, 3, 4]).ok_or("a PIN")?;
    let zeros = [0; 14];
    assert_eq!(rt;
        build(Format::F01, &pin, &ACCOUNT, &zeros),
        0x0412_26CB_A987_6FED
    );
    assert_eq!(rt;
        build(Format::F03, &pin, &ACCOUNT, &zeros),
        0x1234_FFFF_FFFF_FFFF
    );
    assert_eq!(rt;
        build(Format::F05, &pin, &ACCOUNT, &zeros),
        0x1412_3400_0000_0000
    );
    assert_eq!(rt;
        build(Format::F47, &pin, &ACCOUNT, &[15; 14]),
        0x3412_26CB_A987_6FED
    );
    for (format, block) in [
        (Format::F01, 0x0412_26CB_A987_6FED),
        (Format::F03, 0x1234_FFFF_FFFF_FFFF),
        (Format::F05, 0x1412_3400_0000_0000),
        (Format::F47, 0x3412_26CB_A987_6FED),
    ] {
        assert_eq!(rt; read(format, block, &ACCOUNT), Ok(pin));
    }
    let other = Pin::of(&[4, 6, 2, 1]).ok_or("a PIN")?;
    assert_eq!(rt;
        build(Format::F01, &other, &ACCOUNT, &zeros),
        0x0446_33CB_A987_6FED
    );
    for (format, block, fault) in [
        (Format::F47, 0x3412_2634_5678_9012, BlockFault::Body),
        (Format::F03, 0x123F_FFFF_FFFF_FFFF, BlockFault::Length),
        (Format::F03, 0x1234_AFFF_FFFF_FFFF, BlockFault::Body),
        (Format::F47, 0x0412_26CB_A987_6FED, BlockFault::Control),
    ] {
        assert_eq!(rt; read(format, block, &ACCOUNT), Err(fault));
    }
    Ok(())
}

// The values of cards are those that model/card_values.py prints, from OpenSSL's DES.
#[test]
fn values(rt: HostRuntime) -> Result<(), Fail> {
    assert_eq!(rt;
        select(0xA7B3_C9D1_E4F6_0258, 4),
        [7, 3, 9, 1, 0, 0, 0, 0, 0, 0, 0, 0, 0, 0, 0, 0]
    );
    assert_eq!(rt;
        select(0xABCD_EFAB_CDEF_12AB, 4),
        [1, 2, 0, 1, 0, 0, 0, 0, 0, 0, 0, 0, 0, 0, 0, 0]
    );
    let pin = Pin::of(&[1, 2, 3, 4]).ok_or("a PIN")?;
    assert!(rt; pin.digits().len() == 4);
    assert_eq!(rt;
        offset(&[7, 3, 9, 1, 0, 0, 0, 0, 0, 0, 0, 0, 0, 0, 0, 0], &pin, 4),
        [4, 9, 4, 3, 15, 15, 15, 15, 15, 15, 15, 15]
    );
    let table = [0, 1, 2, 3, 4, 5, 6, 7, 8, 9, 0, 1, 2, 3, 4, 5];
    assert!(rt; table_ok(&table));
    assert!(rt; !table_ok(&[0, 1, 2, 3, 4, 5, 6, 7, 8, 9, 0, 0, 0, 0, 0, 0]));
    // The block enciphered under this key is 85E813540F0AB405.
    let pvk = Key::one(&[0x13, 0x34, 0x57, 0x79, 0x9B, 0xBC, 0xDF, 0xF1]);
    assert_eq!(rt;
        natural_pin(&pvk, &table, 0x0123_4567_89AB_CDEF),
        [8, 5, 4, 8, 1, 3, 5, 4, 0, 5, 0, 0, 1, 4, 0, 5]
    );
    let a = Key::one(&[0x01, 0x23, 0x45, 0x67, 0x89, 0xAB, 0xCD, 0xEF]);
    let b = Key::one(&[0xFE, 0xDC, 0xBA, 0x98, 0x76, 0x54, 0x32, 0x10]);
    let pan = [4, 1, 2, 3, 4, 5, 6, 7, 8, 9, 0, 1, 2, 3, 4, 5];
    assert_eq!(rt; cvv(&a, &b, &pan, &[8, 7, 0, 1], &[1, 0, 1]), [5, 6, 1]);
    let longest = [4, 1, 2, 3, 4, 5, 6, 7, 8, 9, 0, 1, 2, 3, 4, 5, 6, 7, 8];
    assert_eq!(rt; cvv(&a, &b, &longest, &[8, 7, 0, 1], &[1, 0, 1]), [3, 6, 2]);
    assert_eq!(rt; pvv(&a, &b, &ACCOUNT, 1, &pin), [2, 5, 0, 4]);
    Ok(())
}
