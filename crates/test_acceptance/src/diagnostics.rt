// Echo, the check of the LMKs and the numbers of grants and hosts: messages and their whole answers, without header.
// model/data_rows.py computes them.
use crate::laboratory::answers;
use std::test::Fail;

// Data that hold the byte of a trailer, and what follows them.
#[rattlefmt::skip]
const ECHOED: [(&[u8], &[u8]); 12] = [
    (b"B20003A\x19B\x19AAAAAAAAAAAAAAAAAAAAAAAAAAAAAAAA", b"B300A\x19B\x19AAAAAAAAAAAAAAAAAAAAAAAAAAAAAAAA"),
    (b"B20004\x19end", b"B300\x19end"),
    (b"B2000a\x19\x00;\xFF %L\x19\x80\x22", b"B300\x19\x00;\xFF %L\x19\x80\x22"),
    (b"B20000", b"B300"),
    (b"B20003A\x19B\x19AAAAAAAAAAAAAAAAAAAAAAAAAAAAAAAAA", b"B315"),
    (b"B2", b"B315"),
    (b"B2000", b"B315"),
    (b"B20003AB", b"B315"),
    (b"B20001AB\x19end", b"B315"),
    (b"NC", b"ND0033C517CEFDC01D400001-LAB1"),
    (b"NC\x19AAAAAAAAAAAAAAAAAAAAAAAAAAAAAAAA", b"ND0033C517CEFDC01D400001-LAB1\x19AAAAAAAAAAAAAAAAAAAAAAAAAAAAAAAA"),
    (b"NC0", b"ND15"),
];

#[test]
fn data_echoed(rt: HostRuntime) -> Result<(), Fail> {
    answers(&rt, &ECHOED)
}

// No grant lives where no console allowed one.
#[rattlefmt::skip]
const COUNTED: [(&[u8], &[u8]); 6] = [
    (b"NO00", b"NP000002"),
    (b"RA\x19end", b"RB00\x19end"),
    (b"NO00\x19", b"NP000002\x19"),
    (b"NO", b"NP15"),
    (b"NO01", b"NP15"),
    (b"RA0\x19end", b"RB15"),
];

#[test]
fn grants_counted(rt: HostRuntime) -> Result<(), Fail> {
    answers(&rt, &COUNTED)
}
