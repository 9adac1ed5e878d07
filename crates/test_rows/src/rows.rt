// What rows read and refuse, and how they are explained.
use hsm_rows::{Code, codes, console_row, explain, read_fields, row_of};
use hsm_text::Reply;
use std::process::Abort;

// Reads what follows the command code by a host row.
fn read_host(rt: &impl Abort, code: &[u8; 2], text: &[u8], texts: &[&[u8]], trailer: &[u8]) {
    match row_of(code) {
        Some(row) => match read_fields(row, text) {
            Ok(fields) => {
                assert_eq!(rt; fields.texts.as_slice(), texts);
                assert_eq!(rt; fields.trailer, trailer);
            }
            Err(_) => assert!(rt; false, "refused"),
        },
        None => assert!(rt; false, "no row"),
    }
}

fn refuse_host(rt: &impl Abort, code: &[u8; 2], text: &[u8], refused: u8) {
    match row_of(code) {
        Some(row) => match read_fields(row, text) {
            Ok(_) => assert!(rt; false, "read"),
            Err(code) => assert_eq!(rt; code, Code(refused)),
        },
        None => assert!(rt; false, "no row"),
    }
}

fn refuse_console(rt: &impl Abort, word: &[u8], text: &[u8], refused: u8) {
    match console_row(word) {
        Some(row) => match read_fields(row, text) {
            Ok(_) => assert!(rt; false, "read"),
            Err(code) => assert_eq!(rt; code, Code(refused)),
        },
        None => assert!(rt; false, "no row"),
    }
}

#[test]
fn reads_host_messages(rt: HostRuntime) {
    read_host(
        &rt,
        b"A0",
        b"0001U",
        &[b"0", b"001", b"U", b"", b"", b""],
        b"",
    );
    refuse_host(&rt, b"A0", b"0001X", 26);
    refuse_host(&rt, b"A0", b"0001U;0", 15);
    refuse_host(&rt, b"BU", b"013", 5);
    refuse_host(&rt, b"BU", b"040", 4);
    read_host(
        &rt,
        b"BU",
        b"FF00123456789ABCDEF;402",
        &[b"FF", b"0", b"0123456789ABCDEF", b";", b"402"],
        b"",
    );
    refuse_host(&rt, b"M6", b"010110080123456789ABCDEF0003414", 15);
    read_host(
        &rt,
        b"M6",
        b"000110080123456789ABCDEF0003414",
        &[
            b"0",
            b"0",
            b"0",
            b"1",
            b"1",
            b"008",
            b"0123456789ABCDEF",
            b"",
            b"0003",
            b"414",
        ],
        b"",
    );
    read_host(
        &rt,
        b"B2",
        b"0003A\x19B\x19ab",
        &[b"0003", b"A\x19B"],
        b"\x19ab",
    );
}

#[test]
fn refuses_console_texts(rt: HostRuntime) {
    refuse_console(&rt, b"GC", b"  001 Z", 4);
    refuse_console(&rt, b"GC", b" 001Z", 26);
    refuse_console(&rt, b"GC", b" 001 ", 26);
    refuse_console(&rt, b"A", b"  pin.clear 1 abc hello", 15);
    refuse_console(&rt, b"A", b" pin.clear 721 abc hello", 15);
    refuse_console(&rt, b"VA", b" ", 15);
    refuse_console(&rt, b"FK", b" 001 Z 0123456789ABCDEF 0123456789ABCDEF ", 15);
}

#[test]
fn reads_console_texts(rt: HostRuntime) {
    match console_row(b"FK") {
        Some(row) => match read_fields(row, b" 001 Z 0123456789ABCDEF 1111111111111111 %03") {
            Ok(fields) => assert_eq!(rt;
                (fields.texts.as_slice(), fields.set),
                (
                    [
                        b"001".as_slice(),
                        b"Z",
                        b"0123456789ABCDEF",
                        b"1111111111111111",
                        b"",
                        b"%03"
                    ]
                    .as_slice(),
                    3
                )
            ),
            Err(_) => assert!(rt; false, "refused"),
        },
        None => assert!(rt; false, "no row"),
    }
}

// What is printed of each host row.
#[rattlefmt::skip]
const EXPLAINED: [(&[u8; 2], &str); 23] = [
    (b"A0", "A0 A1\n0to1 15\ntype 04\nscheme 26\nmode1:[;f] 15\nmode1:K 15\nmode1:wscheme 26\n"),
    (b"A6", "A6 A7\ntype 04\nK 15\nW 15\nscheme 26\n"),
    (b"A8", "A8 A9\ntype 04\n[;f] 15\nK 15\nK 15\nwscheme 26\n"),
    (b"BU", "BU BV\ntype2 04\nflag 05\nKF 15\nFF:; 15\nFF:type 04\n"),
    (b"CA", "CA CB\nK 15\nK 15\nlen 15\n16H 15\nformat 23\nformat 23\n12N 15\n"),
    (b"CC", "CC CD\nK 15\nK 15\nlen 15\n16H 15\nformat 23\nformat 23\n12N 15\n"),
    (b"DE", "DE DF\nK 15\n16H 15\nlen 15\n12N 15\n16N 15\n12V 15\n"),
    (b"DG", "DG DH\nP 15\n16H 15\n12N 15\n1N 15\n"),
    (b"DA", "DA DB\nK 15\nK 15\nlen 15\n16H 15\nformat 23\nlen 15\n12N 15\n16N 15\n12V 15\noffs 15\n"),
    (b"EA", "EA EB\nK 15\nK 15\nlen 15\n16H 15\nformat 23\nlen 15\n12N 15\n16N 15\n12V 15\noffs 15\n"),
    (b"DC", "DC DD\nK 15\nP 15\n16H 15\nformat 23\n12N 15\n1N 15\n4N 15\n"),
    (b"EC", "EC ED\nK 15\nP 15\n16H 15\nformat 23\n12N 15\n1N 15\n4N 15\n"),
    (b"BA", "BA BB\n12F 15\n12N 15\n"),
    (b"NG", "NG NH\n12N 15\n16H 15\nclear 1\n"),
    (b"JA", "JA JB\n12N 15\nlen 15\n"),
    (b"CW", "CW CX\nP 15\npan 15\n4N 15\n3N 15\n"),
    (b"CY", "CY CZ\nP 15\n3N 15\npan 15\n4N 15\n3N 15\n"),
    (b"M6", "M6 M7\n0to3 15\n0to2 15\n0to1 15\n1or3 15\n0to3 15\nmactype 04\nK 15\nmode23:16H 15\ncount 15\ndata 15\n"),
    (b"M8", "M8 M9\n0to3 15\n0to2 15\n0to1 15\n1or3 15\n0to3 15\nmactype 04\nK 15\nmode23:16H 15\ncount 15\ndata 15\nmode03:mac 15\n"),
    (b"B2", "B2 B3\ncount 15\ndata 15\n"),
    (b"NC", "NC ND\n"),
    (b"NO", "NO NP\n00 15\n"),
    (b"RA", "RA RB\n"),
];

#[test]
fn explains_each_host_row(rt: HostRuntime) {
    for (code, text) in EXPLAINED {
        match row_of(code) {
            Some(row) => {
                let mut out = Reply::new();
                explain(row, &mut out);
                assert_eq!(rt; out.bytes(), text.as_bytes());
            }
            None => assert!(rt; false, "no row"),
        }
    }
}

// The codes of some host rows, worked out by hand from the rule: 00; 13; 15; those of the fields; 26, 27 and the parity codes
// where there are keys; 29, 75 and 17; those of the data checks; 01.
#[rattlefmt::skip]
const NAMED: [(&[u8; 2], &[u8]); 6] = [
    (b"A0", &[0, 4, 10, 13, 15, 17, 26, 27, 29]),
    (b"A6", &[0, 4, 10, 11, 13, 15, 17, 26, 27, 29, 75]),
    (b"DA", &[0, 1, 10, 11, 13, 15, 20, 23, 24, 25, 26, 27]),
    (b"NG", &[0, 13, 14, 15, 17]),
    (b"M8", &[0, 1, 4, 10, 13, 15, 26, 27, 80]),
    (b"B2", &[0, 13, 15]),
];

#[test]
fn names_codes_of_rows(rt: HostRuntime) {
    for (code, named) in NAMED {
        match row_of(code) {
            Some(row) => {
                let found = codes(row);
                assert_eq!(rt; found.len(), named.len());
                for (code, number) in found.iter().zip(named) {
                    assert_eq!(rt; code.0, *number);
                }
            }
            None => assert!(rt; false, "no row"),
        }
    }
    match console_row(b"GC") {
        Some(row) => assert!(rt; codes(row).is_empty()),
        None => assert!(rt; false, "no row"),
    }
}
