//! Made scripts and their summaries, computed by model/make_rows.py.
use hsm_io::Sink;
use hsm_make::{made_module, made_script, put_summary};
use hsm_tally::Tally;
use hsm_text::Reply;
use std::test::Fail;

#[test]
fn scripts_have_the_lines_of_their_numbers(rt: HostRuntime) -> Result<(), Fail> {
    let scripts: [(u32, u32, &[u8]); 4] = [
        (0, 5, b""),
        (1, 0, b"L1 0012303030\nL1 314232303030383030303033303339\n"),
        (
            4,
            0,
            b"L1 0012303030\nL1 314232303030383030303033303339\n\
            L1 001930\nL1 303031425530313030343332454236394645373635414334\n\
            L1 00193030303142\nL1 5530313030343332454236394645373635414334\n\
            L1 00143030\nL1 30314A413132333435363738393031323034\n",
        ),
        (
            3,
            4294967258,
            b"C GC 001 Z\n\
            L1 000B3030303141\n\
            L1 303030303155\n\
            L1 00123030303142\n\
            L1 32303030383134354132353031\n",
        ),
    ];
    for (count, seed, lines) in scripts {
        let script = made_script(rt.alloc(), count, seed)?;
        assert_eq!(rt; script.as_slice(), lines, "{count} {seed}");
    }
    Ok(())
}

#[test]
fn summaries_count_and_hash_the_output(rt: HostRuntime) {
    let module = made_module();
    assert_eq!(rt; (module.header, module.hosts), (4, 1));
    let outputs: [(u32, &[u8], &[u8]); 2] = [
        (
            1,
            b"L1 001030303031423330303030303033303339\nEND 1\n",
            b"MADE 1 1 0 816eeb5b3376cfaef46e66c31ee1c0ede8c50632e67b95925ef3b0bd6ff87e95\n",
        ),
        (
            4,
            b"L1 001030303031423330303030303033303339\n\
            L1 000E3030303142563030443544343446\n\
            L1 000E3030303142563030443544343446\n\
            L1 0018303030314A42303046454236353430353737393343314333\n\
            END 4\n",
            b"MADE 4 4 0 e866c070225042da676880fb41a91f02ce00e87ac6846003960d44b2f8e69685\n",
        ),
    ];
    for (count, output, line) in outputs {
        let mut tally = Tally::new();
        let _ = tally.write(output);
        let mut summary = Reply::new();
        put_summary(count, tally, &mut summary);
        assert_eq!(rt; summary.bytes(), line);
    }
}
