// The commands that serve no lanes, and words that are no command.
use crate::cases::{Case, comes_to};
use hsm_config::ConfigFault;
use hsm_program::Outcome;
use std::alloc::{Alloc, Global};
use std::process::Abort;
use std::sync::Wait;
use std::test::Fail;
use std::thread::Threads;
use test_benches::{PLAIN, SETTINGS, Setup, runs};

// A script of one message, and what it prints.
const SCRIPT: &[u8] = b"L1 001930303031425530313038354538313335343046304142343035\n";

const PRINTED: &[u8] = b"L1 000E3030303142563030443544343446\nEND 1\n";

// These words are no command, and the word at this place is the first that shows it. Nothing else is looked at: every other call would fail.
fn is_no_command(
    rt: &(impl Abort + Alloc<A = Global> + Threads + Wait + Sync),
    words: &[&str],
    place: u64,
) -> Result<(), Fail> {
    let setup = Setup {
        bad_files: &[0],
        bad_seeds: &[0],
        ..PLAIN
    };
    let over = runs(rt, words, &setup, &[0])?;
    assert_eq!(rt;
        (over.ended.status, over.ended.outcome),
        (2, Outcome::Usage(place))
    );
    assert!(rt; over.out.bytes().is_empty() && over.bench.bad_name().is_empty());
    assert!(rt; over.ended.lanes.is_empty() && over.ended.pass.is_none());
    Ok(())
}

#[test]
fn words_of_serve_and_check(rt: HostRuntime) -> Result<(), Fail> {
    is_no_command(&rt, &[], 0)?;
    is_no_command(&rt, &[""], 0)?;
    is_no_command(&rt, &["fly"], 0)?;
    is_no_command(&rt, &["fly", "c"], 0)?;
    is_no_command(&rt, &["Serve", "c"], 0)?;
    is_no_command(&rt, &["--help"], 0)?;
    is_no_command(&rt, &["serve"], 1)?;
    is_no_command(&rt, &["serve", ""], 1)?;
    is_no_command(&rt, &["serve", "-c"], 1)?;
    is_no_command(&rt, &["serve", "c", "x"], 2)?;
    is_no_command(&rt, &["serve", "c", ""], 2)?;
    is_no_command(&rt, &["check"], 1)?;
    is_no_command(&rt, &["check", ""], 1)?;
    is_no_command(&rt, &["check", "-c"], 1)?;
    is_no_command(&rt, &["check", "c", "x"], 2)?;
    is_no_command(&rt, &["check", "c", ""], 2)
}

#[test]
fn words_of_explain_and_script(rt: HostRuntime) -> Result<(), Fail> {
    is_no_command(&rt, &["explain"], 1)?;
    is_no_command(&rt, &["explain", "dg"], 1)?;
    is_no_command(&rt, &["explain", "GC"], 1)?;
    is_no_command(&rt, &["explain", "DH"], 1)?;
    is_no_command(&rt, &["explain", "D"], 1)?;
    is_no_command(&rt, &["explain", "DGX", ""], 1)?;
    is_no_command(&rt, &["explain", "DG", "NG"], 2)?;
    is_no_command(&rt, &["script"], 1)?;
    is_no_command(&rt, &["script", "", "-f", "g"], 1)?;
    is_no_command(&rt, &["script", "-c", "f"], 1)?;
    is_no_command(&rt, &["script", "c"], 2)?;
    is_no_command(&rt, &["script", "c", "-f", "g"], 2)?;
    is_no_command(&rt, &["script", "c", ""], 2)?;
    is_no_command(&rt, &["script", "c", "f", ""], 3)
}

// What these words come to, and what they print.
fn prints(
    rt: &(impl Abort + Alloc<A = Global> + Threads + Wait + Sync),
    words: &[&str],
    bad_writes: &[u32],
    ended: (u8, Outcome),
    output: &[u8],
) -> Result<(), Fail> {
    let over = runs(rt, words, &PLAIN, bad_writes)?;
    assert_eq!(rt; (over.ended.status, over.ended.outcome), ended);
    assert_eq!(rt; over.out.bytes(), output);
    Ok(())
}

#[test]
fn rows_explained(rt: HostRuntime) -> Result<(), Fail> {
    let served = (0, Outcome::Served);
    let dg = b"DG DH\nP 15\n16H 15\n12N 15\n1N 15\n".as_slice();
    let ng = b"NG NH\n12N 15\n16H 15\nclear 1\n".as_slice();
    prints(&rt, &["explain", "DG"], &[], served, dg)?;
    prints(&rt, &["explain", "NG"], &[], served, ng)?;
    prints(&rt, &["explain", "RA"], &[], served, b"RA RB\n".as_slice())?;
    prints(
        &rt,
        &["explain", "RA"],
        &[0],
        (3, Outcome::OutFault),
        b"".as_slice(),
    )
}

#[test]
fn scripts_and_configurations(rt: HostRuntime) -> Result<(), Fail> {
    let check: &[&str] = &["check", "c"];
    let script: &[&str] = &["script", "c", "f"];
    let no_script: &[&str] = &["script", "c", "g"];
    let served = Outcome::Served;
    let not_toml = Outcome::ConfigRefused(ConfigFault::NotToml);
    let rule_1 = Outcome::ConfigRefused(ConfigFault::Rule(1));
    let rule_3 = Outcome::ConfigRefused(ConfigFault::Rule(3));
    // A configuration is settled before the script's file is opened, which is missing or no script where a configuration is refused.
    let cases: [(&[&str], &[u8], &[u8], u8, Outcome, &[u8]); 11] = [
        (script, SETTINGS, SCRIPT, 0, served, PRINTED),
        (script, SETTINGS, b"L1 0019", 6, served, b"L1 cut\nEND 0\n"),
        (
            script,
            SETTINGS,
            b"L1 0000",
            6,
            served,
            b"L1 short 0\nEND 0\n",
        ),
        (script, SETTINGS, b"", 0, served, b"END 0\n"),
        (
            script,
            SETTINGS,
            b"L1 00\nX\nL1 19\n",
            4,
            Outcome::ScriptRefused(2),
            b"",
        ),
        // A module of two host ports has no third lane.
        (
            script,
            SETTINGS,
            b"T 5\nL3 00",
            4,
            Outcome::ScriptRefused(2),
            b"",
        ),
        (check, SETTINGS, b"X", 0, served, b"OK 2\n"),
        (check, b"[", b"X", 4, not_toml, b""),
        (check, b"version = 1\nheader = 256\n", b"X", 4, rule_3, b""),
        (no_script, b"[", b"X", 4, not_toml, b""),
        (script, b"extra = 1", b"X", 4, rule_1, b""),
    ];
    for (words, config, script, status, outcome, output) in cases {
        let case = Case {
            words,
            setup: Setup {
                config,
                script,
                ..PLAIN
            },
            bad_writes: &[],
            ended: (status, outcome),
            output,
            bad_name: b"",
        };
        comes_to(&rt, &case)?;
    }
    Ok(())
}

// The lines are those of model/make_rows.py.
#[test]
fn made_scripts(rt: HostRuntime) -> Result<(), Fail> {
    let served = (0, Outcome::Served);
    let one = b"MADE 1 1 0 816eeb5b3376cfaef46e66c31ee1c0ede8c50632e67b95925ef3b0bd6ff87e95\n";
    let four = b"MADE 4 4 0 e866c070225042da676880fb41a91f02ce00e87ac6846003960d44b2f8e69685\n";
    prints(&rt, &["make", "1", "0"], &[], served, one.as_slice())?;
    prints(&rt, &["make", "4", "0"], &[], served, four.as_slice())?;
    prints(
        &rt,
        &["make", "4", "0"],
        &[0],
        (3, Outcome::OutFault),
        b"".as_slice(),
    )
}

#[test]
fn words_of_make(rt: HostRuntime) -> Result<(), Fail> {
    is_no_command(&rt, &["make"], 1)?;
    is_no_command(&rt, &["make", "0", "1"], 1)?;
    is_no_command(&rt, &["make", "50001", "0"], 1)?;
    is_no_command(&rt, &["make", "01", "0"], 1)?;
    is_no_command(&rt, &["make", "+1", "0"], 1)?;
    is_no_command(&rt, &["make", "0"], 1)?;
    is_no_command(&rt, &["make", "1"], 2)?;
    is_no_command(&rt, &["make", "1", "4294967296"], 2)?;
    is_no_command(&rt, &["make", "1", "00"], 2)?;
    is_no_command(&rt, &["make", "1", "-1", "x"], 2)?;
    is_no_command(&rt, &["make", "1", "0", "x"], 3)
}
