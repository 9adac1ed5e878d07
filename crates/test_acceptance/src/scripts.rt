// Scripts of host lanes and what they print, under the LMK sets of the test laboratory.
use crate::laboratory::{end_of, runs, runs_on};
use hsm_session::{Line, ScriptFault, read_script};
use itoa::Buffer;
use std::alloc::AllocError;
use std::test::Fail;
use test_laboratory::Set;

// A frame with a sealed key whose check value is D5D44F, as the line of a script.
const ASKED: &str = "L1 001930303031425530313038354538313335343046304142343035\n";

#[test]
fn check_values(rt: HostRuntime) -> Result<(), Fail> {
    // The opened key has a byte of even parity.
    let even = "L1 001930303031425530323031373636384446433732393235333244\n";
    // Halves of a pair that differ, and the two key types.
    let zone = "L1 001930303031425530313030343332454236394645373635414334\n";
    let terminal = "L1 001930303031425530323044323844444336454142424434314345\n";
    let cases = [
        (
            Set::E1,
            ASKED,
            "L1 000E3030303142563030443544343446\nEND 1\n",
        ),
        (Set::E2, even, "L1 00083030303142563130\nEND 1\n"),
        (Set::T, zone, "L1 000E3030303142563030443544343446\nEND 1\n"),
        (
            Set::T,
            terminal,
            "L1 000E3030303142563030443544343446\nEND 1\n",
        ),
        // An unknown command, and a text that ends before the flag.
        (
            Set::E1,
            "L1 0006303030315A5A\n",
            "L1 0008303030315A5B3638\nEND 1\n",
        ),
        (
            Set::E1,
            "L1 00083030303142553031\n",
            "L1 00083030303142563035\nEND 1\n",
        ),
    ];
    for (set, script, output) in cases {
        runs(
            &rt,
            set,
            script.as_bytes(),
            output.as_bytes(),
            end_of(1, 0, 0),
        )?;
    }
    Ok(())
}

// A check value, a refused text and a number of grants, however their stream is cut.
#[test]
fn frames_cut_anywhere(rt: HostRuntime) -> Result<(), Fail> {
    let alloc = rt.alloc();
    let stream =
        b"001930303031425530313038354538313335343046304142343035000830303031425530310008303030314E4F3030";
    for bytes in [1, 7, 1_000] {
        let mut script = Vec::new(alloc);
        for piece in stream.chunks(2 * bytes) {
            script.extend_from_slice(b"L1 ")?;
            script.extend_from_slice(piece)?;
            script.push(b'\n')?;
        }
        runs(
            &rt,
            Set::E1,
            &script,
            b"L1 000E3030303142563030443544343446\nL1 00083030303142563035\nL1 000C303030314E50303030303032\nEND 3\n",
            end_of(3, 0, 0),
        )?;
    }
    Ok(())
}

// Appends what a lane's line begins with.
fn push_lane(text: &mut Vec<u8>, lane: u8) -> Result<(), AllocError> {
    text.push(b'L')?;
    text.extend_from_slice(Buffer::new().format(lane).as_bytes())?;
    text.push(b' ')?;
    Ok(())
}

// 64 lanes of which each asks for the number of grants, and on the last one a piece of three frames that is longer than
// a lane can hold: B2 with 30,000 bytes of data, which are repeated.
#[test]
fn many_lanes(rt: HostRuntime) -> Result<(), Fail> {
    let alloc = rt.alloc();
    let mut script = Vec::new(alloc);
    let mut output = Vec::new(alloc);
    for lane in 1u8..=64 {
        push_lane(&mut script, lane)?;
        script.extend_from_slice(b"0008303030314E4F3030\n")?;
        push_lane(&mut output, lane)?;
        output.extend_from_slice(b"000C303030314E50303030303634\n")?;
    }
    let mut data = Vec::new(alloc);
    for _ in 0..30_000 {
        data.extend_from_slice(b"41")?;
    }
    push_lane(&mut script, 64)?;
    for _ in 0..3 {
        script.extend_from_slice(b"753A30303031423237353330")?;
        script.extend_from_slice(&data)?;
        push_lane(&mut output, 64)?;
        output.extend_from_slice(b"75383030303142333030")?;
        output.extend_from_slice(&data)?;
        output.push(b'\n')?;
    }
    output.extend_from_slice(b"END 67\n")?;
    runs_on(&rt, Set::T, 64, &script, &output, end_of(67, 0, 0))
}

#[test]
fn ends_of_streams(rt: HostRuntime) -> Result<(), Fail> {
    let alloc = rt.alloc();
    // A frame below the least length closes the lane.
    let mut closed = Vec::from_slice(alloc, b"L1 00053030303142\n")?;
    closed.extend_from_slice(ASKED.as_bytes())?;
    runs(
        &rt,
        Set::E1,
        &closed,
        b"L1 short 5\nL1 closed\nEND 0\n",
        end_of(0, 0, 1),
    )?;
    runs(
        &rt,
        Set::E1,
        b"L1 0000",
        b"L1 short 0\nEND 0\n",
        end_of(0, 0, 1),
    )?;
    // A part of a frame at the end.
    let mut cut = Vec::from_slice(alloc, ASKED.as_bytes())?;
    cut.extend_from_slice(b"L1 0019")?;
    runs(
        &rt,
        Set::E1,
        &cut,
        b"L1 000E3030303142563030443544343446\nL1 cut\nEND 1\n",
        end_of(1, 1, 0),
    )?;
    // Two messages in one piece, the second one in lower case.
    let two =
        b"L1 0019303030314255303130383545383133353430463041423430350019303030314255303130383565383133353430663061623430350000\n";
    runs(
        &rt,
        Set::E1,
        two,
        b"L1 000E3030303142563030443544343446\nL1 000E3030303142563030443544343446\nL1 short 0\nEND 2\n",
        end_of(2, 0, 1),
    )
}

// What each kind of line says.
#[test]
fn lines_that_read(rt: HostRuntime) -> Result<(), Fail> {
    let alloc = rt.alloc();
    let mut script = Vec::from_slice(alloc, ASKED.as_bytes())?;
    script.extend_from_slice(b"T 5\n\nC VA")?;
    let lines = read_script(alloc, 2, &script).ok().ok_or("script")?;
    match lines.as_slice() {
        [
            Line::Piece { lane, bytes },
            Line::Moment(moment),
            Line::Skip,
            Line::Console(text),
        ] => {
            assert_eq!(&rt; *lane, 1);
            assert_eq!(&rt; bytes.len(), 27);
            assert_eq!(&rt; *moment, 5);
            assert_eq!(&rt; text.as_slice(), b"VA".as_slice());
        }
        _ => return Err("lines".into()),
    }
    Ok(())
}

#[test]
fn lines_that_do_not_read(rt: HostRuntime) -> Result<(), Fail> {
    let cases: [(&[u8], u64); 18] = [
        (b"X", 1),
        (b"T 5\nL3 00", 2),
        (b"L1 00\n\n#\nL2 00\nC VA\nl1 00", 6),
        (b"T", 1),
        (b"T 05", 1),
        (b"T -1", 1),
        (b"T 1099511627777", 1),
        (b"T 5\r\n", 1),
        (b"L0 00", 1),
        (b"L01 00", 1),
        (b"L1", 1),
        (b"L1 ", 1),
        (b"L1 0\n", 1),
        (b"L1 0G\n", 1),
        (b"L1 00\r\n", 1),
        (b"C", 1),
        (b"C ", 1),
        (b"C \x7F", 1),
    ];
    for (script, line) in cases {
        runs(&rt, Set::T, script, b"", Err(ScriptFault::Line(line)))?;
    }
    runs(
        &rt,
        Set::T,
        b"T 1099511627776\n\n# \xFF\n",
        b"END 0\n",
        end_of(0, 0, 0),
    )
}
