// Runs of scripts and messages under the modules of the test laboratory.
use hsm_auth::Ledger;
use hsm_io::MemSink;
use hsm_nibbles::hex_character;
use hsm_rows::Module;
use hsm_session::{ScriptEnd, ScriptFault, script_run};
use itoa::Buffer;
use std::alloc::{Alloc, AllocError, Global};
use std::process::Abort;
use std::test::Fail;
use test_laboratory::{Set, module_of, module_of_two};

pub(crate) fn end_of(entries: u64, cut: u32, short: u32) -> Result<ScriptEnd, ScriptFault> {
    Ok(ScriptEnd {
        entries,
        cut,
        short,
    })
}

// Runs a script by a module over a new ledger, and compares what it printed and how it ended.
fn runs_by(
    rt: &(impl Abort + Alloc<A = Global>),
    module: &Module,
    script: &[u8],
    output: &[u8],
    ended: Result<ScriptEnd, ScriptFault>,
) -> Result<(), Fail> {
    let alloc = rt.alloc();
    let mut ledger = Ledger::new(alloc)?;
    let mut out = MemSink::new(alloc, output.len() + 1_000, Vec::new(alloc))?;
    let run = script_run(alloc, module, &mut ledger, script, &mut out);
    assert_eq!(rt; out.bytes(), output);
    assert_eq!(rt; run, ended);
    Ok(())
}

// The same under a set with so many hosts.
pub(crate) fn runs_on(
    rt: &(impl Abort + Alloc<A = Global>),
    set: Set,
    hosts: u8,
    script: &[u8],
    output: &[u8],
    ended: Result<ScriptEnd, ScriptFault>,
) -> Result<(), Fail> {
    let module = module_of(rt.alloc(), set, hosts).ok_or("module")?;
    runs_by(rt, &module, script, output, ended)
}

// The same with two hosts.
pub(crate) fn runs(
    rt: &(impl Abort + Alloc<A = Global>),
    set: Set,
    script: &[u8],
    output: &[u8],
    ended: Result<ScriptEnd, ScriptFault>,
) -> Result<(), Fail> {
    runs_on(rt, set, 2, script, output, ended)
}

// Appends bytes as upper-case hexadecimal digits.
fn push_hex(line: &mut Vec<u8>, bytes: &[u8]) -> Result<(), AllocError> {
    for byte in bytes {
        line.push(hex_character(*byte / 16))?;
        line.push(hex_character(*byte % 16))?;
    }
    Ok(())
}

// Appends the line of a script that holds the frame of a text with the header 0001. The text has at most 1,000 bytes.
fn push_line(lines: &mut Vec<u8>, text: &[u8]) -> Result<(), AllocError> {
    let length = 4 + text.len().min(1_000) as u16;
    lines.extend_from_slice(b"L1 ")?;
    push_hex(lines, &length.to_be_bytes())?;
    push_hex(lines, b"0001")?;
    push_hex(lines, text)?;
    lines.push(b'\n')?;
    Ok(())
}

// Runs messages in their order, one a line, under a set over a new ledger, and compares their answers. Both are given
// without header.
pub(crate) fn answers_under(
    rt: &(impl Abort + Alloc<A = Global>),
    set: Set,
    cases: &[(&[u8], &[u8])],
) -> Result<(), Fail> {
    let alloc = rt.alloc();
    let mut script = Vec::new(alloc);
    let mut output = Vec::new(alloc);
    for (message, answer) in cases {
        push_line(&mut script, message)?;
        push_line(&mut output, answer)?;
    }
    let entries = cases.len() as u64;
    output.extend_from_slice(b"END ")?;
    output.extend_from_slice(Buffer::new().format(entries).as_bytes())?;
    output.push(b'\n')?;
    runs(rt, set, &script, &output, end_of(entries, 0, 0))
}

// The same under the test set.
pub(crate) fn answers(
    rt: &(impl Abort + Alloc<A = Global>),
    cases: &[(&[u8], &[u8])],
) -> Result<(), Fail> {
    answers_under(rt, Set::T, cases)
}

// The lines of a script, and what they print: with each line stands what it prints.
fn joined(alloc: Global, cases: &[(&str, &str)]) -> Result<(Vec<u8>, Vec<u8>), AllocError> {
    let mut script = Vec::new(alloc);
    let mut output = Vec::new(alloc);
    for (line, printed) in cases {
        script.extend_from_slice(line.as_bytes())?;
        script.push(b'\n')?;
        output.extend_from_slice(printed.as_bytes())?;
    }
    Ok((script, output))
}

// Runs the lines of a script under a set over a new ledger, and compares what they print and how the script ended.
pub(crate) fn prints(
    rt: &(impl Abort + Alloc<A = Global>),
    set: Set,
    cases: &[(&str, &str)],
    ended: Result<ScriptEnd, ScriptFault>,
) -> Result<(), Fail> {
    let (script, output) = joined(rt.alloc(), cases)?;
    runs(rt, set, &script, &output, ended)
}

// The same under two sets.
pub(crate) fn prints_by_two(
    rt: &(impl Abort + Alloc<A = Global>),
    sets: [Set; 2],
    cases: &[(&str, &str)],
    ended: Result<ScriptEnd, ScriptFault>,
) -> Result<(), Fail> {
    let (script, output) = joined(rt.alloc(), cases)?;
    let module = module_of_two(rt.alloc(), sets, 2).ok_or("module")?;
    runs_by(rt, &module, &script, &output, ended)
}
