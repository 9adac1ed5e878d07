// What words come to over a bench, where no lanes are served.
use hsm_program::Outcome;
use std::alloc::{Alloc, Global};
use std::process::Abort;
use std::sync::Wait;
use std::test::Fail;
use std::thread::Threads;
use test_benches::{Setup, runs};

// Words, what they are run over, and what they come to: the status, the outcome, what is written, and the bad name, which is empty where no file failed.
#[derive(Clone, Copy)]
pub(crate) struct Case<'a> {
    pub words: &'a [&'a str],
    pub setup: Setup<'a>,
    pub bad_writes: &'a [u32],
    pub ended: (u8, Outcome),
    pub output: &'a [u8],
    pub bad_name: &'a [u8],
}

// Runs words for which no lanes are served.
pub(crate) fn comes_to(
    rt: &(impl Abort + Alloc<A = Global> + Threads + Wait + Sync),
    case: &Case<'_>,
) -> Result<(), Fail> {
    let over = runs(rt, case.words, &case.setup, case.bad_writes)?;
    assert_eq!(rt; (over.ended.status, over.ended.outcome), case.ended);
    assert_eq!(rt; over.out.bytes(), case.output);
    assert_eq!(rt; over.bench.bad_name(), case.bad_name);
    assert!(rt; over.ended.lanes.is_empty() && over.ended.pass.is_none());
    Ok(())
}
