// Documents that are read, and documents that break each rule.
// The digests are those of SHA-256 for the words abc and hello, by Python's hashlib.
use hsm_config::{Config, ConfigFault};
use std::alloc::{AllocError, Global};
use std::process::Abort;
use std::test::Fail;

// The lines of a document.
#[rattlefmt::skip]
const LINES: [&str; 8] = [
    "version = 1",
    "header = 4",
    "officers = [\"ba7816bf8f01cfea414140de5dae2223b00361a396177a9cb410ff61f20015ad\",
                 \"2cf24dba5fb0a30e26e83b2ac5b9e29e1b161e5c1fa7425e73043362938b9824\"]",
    "lmk = \"test\"",
    "console_port = 1500",
    "host_ports = [1501, 1502]",
    "accept = 8",
    "",
];

#[rattlefmt::skip]
const DIGESTS: [[u8; 32]; 2] = [
    [0xBA, 0x78, 0x16, 0xBF, 0x8F, 0x01, 0xCF, 0xEA, 0x41, 0x41, 0x40, 0xDE, 0x5D, 0xAE, 0x22, 0x23,
     0xB0, 0x03, 0x61, 0xA3, 0x96, 0x17, 0x7A, 0x9C, 0xB4, 0x10, 0xFF, 0x61, 0xF2, 0x00, 0x15, 0xAD],
    [0x2C, 0xF2, 0x4D, 0xBA, 0x5F, 0xB0, 0xA3, 0x0E, 0x26, 0xE8, 0x3B, 0x2A, 0xC5, 0xB9, 0xE2, 0x9E,
     0x1B, 0x16, 0x1E, 0x5C, 0x1F, 0xA7, 0x42, 0x5E, 0x73, 0x04, 0x33, 0x62, 0x93, 0x8B, 0x98, 0x24],
];

const PAIR: &str = "133457799BBCDFF1133457799BBCDFF1";

// A document whose line at a place is another one.
fn changed(
    alloc: Global,
    lines: &[&str; 8],
    place: usize,
    line: &str,
) -> Result<String, AllocError> {
    let mut text = String::new(alloc);
    for i in 0..8 {
        text.push_str(if i == place { line } else { lines[i] })?;
        text.push_str("\n")?;
    }
    Ok(text)
}

// The line of a number of LMK pairs, the last one written apart.
fn pairs_line(alloc: Global, count: usize, last: &str) -> Result<String, AllocError> {
    let mut line = String::from_str(alloc, "lmk = [")?;
    for _ in 1..count {
        line.push_str("\"")?;
        line.push_str(PAIR)?;
        line.push_str("\", ")?;
    }
    line.push_str("\"")?;
    line.push_str(last)?;
    line.push_str("\"]")?;
    Ok(line)
}

fn fault_of(alloc: Global, bytes: &[u8]) -> Option<ConfigFault> {
    Config::read(alloc, bytes).err()
}

fn reads_the_sample(rt: &impl Abort, alloc: Global) -> Result<(), Fail> {
    let text = changed(alloc, &LINES, 7, "")?;
    let config = Config::read(alloc, text.as_bytes()).ok().ok_or("refused")?;
    assert_eq!(rt; config.header, 4);
    assert_eq!(rt; config.officers, DIGESTS);
    assert_eq!(rt; config.pairs[0], *b"        aaaaaaaa");
    assert_eq!(rt; config.pairs[1], *b"########bbbbbbbb");
    assert_eq!(rt;
        config.pairs[19],
        [
            0x46, 0x46, 0x46, 0x46, 0x46, 0x46, 0x46, 0x46, 0x86, 0x86, 0x86, 0x86, 0x86, 0x86,
            0x86, 0x86
        ]
    );
    assert_eq!(rt; config.console_port, 1500);
    assert_eq!(rt; config.host_ports.as_slice(), [1501, 1502].as_slice());
    assert_eq!(rt; config.accept, 8);
    let module = config.module([7; 32]);
    assert_eq!(rt; module.header, 4);
    assert_eq!(rt; module.hosts, 2);
    assert_eq!(rt; module.officers, DIGESTS);
    assert!(rt; module.disabled.is_empty());
    assert_eq!(rt; module.seed, [7; 32]);
    Ok(())
}

fn reads_other_values(rt: &impl Abort, alloc: Global) -> Result<(), Fail> {
    // A line at its place, and the header's length and the number of connections that are read with it.
    let cases: [(usize, &str, u8, u16); 9] = [
        (0, "version = 0x1", 4, 8),
        (1, "header = 0", 0, 8),
        (1, "header = 0xFF", 255, 8),
        (
            2,
            "officers = [\"BA7816BF8F01CFEA414140DE5DAE2223B00361A396177A9CB410FF61F20015AD\", \"2CF24DBA5FB0A30E26E83B2AC5B9E29E1B161E5C1FA7425E73043362938B9824\"]",
            4,
            8,
        ),
        (4, "console_port = 65535", 4, 8),
        (5, "host_ports = [1]", 4, 8),
        (6, "accept = 4_096", 4, 4096),
        (6, "accept = 1", 4, 1),
        (7, "# a remark", 4, 8),
    ];
    for (place, line, header, accept) in cases {
        let text = changed(alloc, &LINES, place, line)?;
        let config = Config::read(alloc, text.as_bytes()).ok().ok_or("refused")?;
        assert_eq!(rt; config.header, header);
        assert_eq!(rt; config.officers, DIGESTS);
        assert_eq!(rt; config.accept, accept);
    }
    for last in [
        PAIR,
        "0123456789ABCDEF0123456789ABCDEF",
        "0123456789abcdef0123456789abcdef",
    ] {
        let line = pairs_line(alloc, 20, last)?;
        let text = changed(alloc, &LINES, 3, line.as_str())?;
        assert_eq!(rt; fault_of(alloc, text.as_bytes()), None);
    }
    Ok(())
}

fn refuses_broken_lines(rt: &impl Abort, alloc: Global) -> Result<(), Fail> {
    let cases: [(usize, &str, u64); 36] = [
        (7, "extra = 1", 1),
        (7, "a.b = 1", 1),
        (7, "[table]", 1),
        (0, "Version = 1", 1),
        (0, "", 2),
        (0, "version = 2", 2),
        (0, "version = 1.0", 2),
        (0, "version = \"1\"", 2),
        (1, "", 3),
        (1, "header = 256", 3),
        (1, "header = -1", 3),
        (1, "header = 4.0", 3),
        (2, "", 4),
        (2, "officers = \"ba7816bf\"", 4),
        (
            2,
            "officers = [\"ba7816bf8f01cfea414140de5dae2223b00361a396177a9cb410ff61f20015ad\"]",
            4,
        ),
        (
            2,
            "officers = [\"ba7816bf8f01cfea414140de5dae2223b00361a396177a9cb410ff61f20015a\", \"2cf24dba5fb0a30e26e83b2ac5b9e29e1b161e5c1fa7425e73043362938b9824\"]",
            4,
        ),
        (
            2,
            "officers = [\"ba7816bf8f01cfea414140de5dae2223b00361a396177a9cb410ff61f20015ag\", \"2cf24dba5fb0a30e26e83b2ac5b9e29e1b161e5c1fa7425e73043362938b9824\"]",
            4,
        ),
        (2, "officers = [1, 2]", 4),
        (3, "", 5),
        (3, "lmk = \"T\"", 5),
        (3, "lmk = 1", 5),
        (3, "lmk = []", 5),
        (4, "", 7),
        (4, "console_port = 0", 7),
        (4, "console_port = 65536", 7),
        (5, "", 8),
        (5, "host_ports = 1501", 8),
        (5, "host_ports = []", 8),
        (5, "host_ports = [0]", 8),
        (5, "host_ports = [1501, 65536]", 8),
        (5, "host_ports = [0, 0]", 8),
        (5, "host_ports = [1501, 1501]", 9),
        (5, "host_ports = [1501, 1500]", 9),
        (6, "", 10),
        (6, "accept = 0", 10),
        (6, "accept = 4097", 10),
    ];
    for (place, line, rule) in cases {
        let text = changed(alloc, &LINES, place, line)?;
        assert_eq!(rt;
            fault_of(alloc, text.as_bytes()),
            Some(ConfigFault::Rule(rule)),
            "{line}"
        );
    }
    Ok(())
}

fn refuses_pairs(rt: &impl Abort, alloc: Global) -> Result<(), Fail> {
    let cases: [(usize, &str, u64); 5] = [
        (19, PAIR, 5),
        (21, PAIR, 5),
        // One pair too many, and that one is even.
        (21, "133457799BBCDFF1133457799BBCDFF0", 5),
        (20, "133457799BBCDFF1133457799BBCDFF", 5),
        (20, "133457799BBCDFF1133457799BBCDFF0", 6),
    ];
    for (count, last, rule) in cases {
        let line = pairs_line(alloc, count, last)?;
        let text = changed(alloc, &LINES, 3, line.as_str())?;
        assert_eq!(rt;
            fault_of(alloc, text.as_bytes()),
            Some(ConfigFault::Rule(rule))
        );
    }
    Ok(())
}

#[test]
fn documents(rt: HostRuntime) -> Result<(), Fail> {
    let alloc = rt.alloc();
    reads_the_sample(&rt, alloc)?;
    reads_other_values(&rt, alloc)?;
    refuses_broken_lines(&rt, alloc)?;
    refuses_pairs(&rt, alloc)?;
    for bytes in [
        b"[".as_slice(),
        b"version = 1\nversion = 1\n",
        b"# \xFF",
        b"header == 4",
    ] {
        assert_eq!(rt; fault_of(alloc, bytes), Some(ConfigFault::NotToml));
    }
    // Nothing is a document without keys.
    assert_eq!(rt; fault_of(alloc, b""), Some(ConfigFault::Rule(2)));
    let text = format!(in alloc;
        "{}; {}; {}",
        ConfigFault::Memory,
        ConfigFault::NotToml,
        ConfigFault::Rule(10)
    )?;
    assert_eq!(rt; text.as_str(), "no memory; not toml; rule 10");
    Ok(())
}
