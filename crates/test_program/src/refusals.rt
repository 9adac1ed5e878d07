// Servings that start no lane.
use crate::cases::{Case, comes_to};
use hsm_config::ConfigFault;
use hsm_program::Outcome;
use std::test::Fail;
use test_benches::{PLAIN, Port, Setup, sound};

#[test]
fn servings_refused(rt: HostRuntime) -> Result<(), Fail> {
    let doors = [sound(1500, &[]), sound(1501, &[]), sound(1502, &[])];
    let seed = (3, Outcome::SeedFault);
    let not_toml = (4, Outcome::ConfigRefused(ConfigFault::NotToml));
    let rule_1 = (4, Outcome::ConfigRefused(ConfigFault::Rule(1)));
    // The configuration, the calls for a seed and for a door that fail, and how serving ends: the first of these causes is told.
    let cases: [(&[u8], &[u32], &[u32], (u8, Outcome)); 9] = [
        (b"[", &[], &[], not_toml),
        (b"[", &[0], &[0], not_toml),
        (b"extra = 1", &[0], &[0], rule_1),
        (PLAIN.config, &[0], &[], seed),
        (PLAIN.config, &[0], &[0], seed),
        (PLAIN.config, &[], &[0], (3, Outcome::ListenFault(0))),
        (PLAIN.config, &[], &[1], (3, Outcome::ListenFault(1))),
        (PLAIN.config, &[], &[2], (3, Outcome::ListenFault(2))),
        (PLAIN.config, &[], &[2, 1], (3, Outcome::ListenFault(1))),
    ];
    for (config, bad_seeds, bad_doors, ended) in cases {
        let case = Case {
            words: &["serve", "c"],
            setup: Setup {
                config,
                ports: &doors,
                bad_seeds,
                bad_doors,
                ..PLAIN
            },
            // The output is looked at last.
            bad_writes: &[0],
            ended,
            output: b"",
            bad_name: b"",
        };
        comes_to(&rt, &case)?;
    }
    Ok(())
}

#[test]
fn missing_doors(rt: HostRuntime) -> Result<(), Fail> {
    let doors = [sound(1500, &[]), sound(1501, &[]), sound(1502, &[])];
    let without_first = [doors[0], doors[2]];
    let cases: [(&[Port<'_>], u64); 4] = [
        (&[], 0),
        (&doors[1..], 0),
        (&without_first, 1),
        (&doors[..2], 2),
    ];
    for (ports, lane) in cases {
        let case = Case {
            words: &["serve", "c"],
            setup: Setup { ports, ..PLAIN },
            bad_writes: &[],
            ended: (3, Outcome::ListenFault(lane)),
            output: b"",
            bad_name: b"",
        };
        comes_to(&rt, &case)?;
    }
    Ok(())
}
