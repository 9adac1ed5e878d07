// Files that cannot be opened or read, or are too long, and outputs that cannot be written.
use crate::cases::{Case, comes_to};
use hsm_config::ConfigFault;
use hsm_program::{FILE_LIMIT, Outcome};
use std::test::Fail;
use test_benches::{PLAIN, Setup, runs_with};

// A script of one message.
const SCRIPT: &[u8] = b"L1 001930303031425530313038354538313335343046304142343035\n";

#[test]
fn failing_files(rt: HostRuntime) -> Result<(), Fail> {
    let script: &[&str] = &["script", "c", "f"];
    // The words, the reads of the configuration and of the script and the openings that fail, and the bad name.
    let cases: [(&[&str], &[u32], &[u32], &[u32], &[u8]); 14] = [
        (&["script", "b", "g"], &[], &[], &[], b"b"),
        (&["script", "c", "g"], &[], &[], &[], b"g"),
        (script, &[0], &[], &[], b"c"),
        (script, &[1], &[0], &[], b"c"),
        (script, &[], &[0], &[], b"f"),
        (script, &[], &[1], &[], b"f"),
        (script, &[], &[], &[0], b"c"),
        (script, &[], &[], &[1], b"f"),
        (&["check", "b"], &[], &[], &[], b"b"),
        (&["check", "c"], &[1], &[], &[], b"c"),
        (&["serve", "b"], &[], &[], &[], b"b"),
        (&["serve", "c"], &[0], &[], &[], b"c"),
        (&["serve", "c"], &[1], &[], &[], b"c"),
        (&["serve", "c"], &[], &[], &[0], b"c"),
    ];
    for (words, config_reads, script_reads, bad_files, bad_name) in cases {
        let case = Case {
            words,
            // Seeds and doors are looked at behind the files, and the output behind these.
            setup: Setup {
                config_reads,
                script: SCRIPT,
                script_reads,
                bad_files,
                bad_seeds: &[0],
                bad_doors: &[0],
                ..PLAIN
            },
            bad_writes: &[0],
            ended: (3, Outcome::FileFault),
            output: b"",
            bad_name,
        };
        comes_to(&rt, &case)?;
    }
    Ok(())
}

#[test]
fn failing_outputs(rt: HostRuntime) -> Result<(), Fail> {
    let cases: [(&[&str], &[u32], &[u8]); 3] = [
        (&["check", "c"], &[0], b""),
        (&["script", "c", "f"], &[0], b""),
        // What was written before the failing write stays.
        (
            &["script", "c", "f"],
            &[1],
            b"L1 000E3030303142563030443544343446\n",
        ),
    ];
    for (words, bad_writes, output) in cases {
        let case = Case {
            words,
            setup: Setup {
                script: SCRIPT,
                ..PLAIN
            },
            bad_writes,
            ended: (3, Outcome::OutFault),
            output,
            bad_name: b"",
        };
        comes_to(&rt, &case)?;
    }
    Ok(())
}

// Files of the greatest length and of one byte more, as a configuration and as a script.
#[test]
fn longest_configurations(rt: HostRuntime) -> Result<(), Fail> {
    let alloc = rt.alloc();
    let not_toml = Outcome::ConfigRefused(ConfigFault::NotToml);
    for (size, outcome) in [(FILE_LIMIT, not_toml), (FILE_LIMIT + 1, Outcome::FileLong)] {
        let config = vec![in alloc; 0u8; size]?;
        let over = runs_with(&rt, &["check", "c"], &PLAIN, config, Vec::new(alloc), &[])?;
        assert_eq!(rt; (over.ended.status, over.ended.outcome), (4, outcome));
    }
    Ok(())
}

#[test]
fn longest_scripts(rt: HostRuntime) -> Result<(), Fail> {
    let alloc = rt.alloc();
    let no_script = Outcome::ScriptRefused(1);
    for (size, outcome) in [(FILE_LIMIT, no_script), (FILE_LIMIT + 1, Outcome::FileLong)] {
        let config = PLAIN.config.to_vec(alloc)?;
        let script = vec![in alloc; 0u8; size]?;
        let over = runs_with(&rt, &["script", "c", "f"], &PLAIN, config, script, &[])?;
        assert_eq!(rt; (over.ended.status, over.ended.outcome), (4, outcome));
    }
    Ok(())
}
