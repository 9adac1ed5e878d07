// Answers of ZW under the test set, computed by model/hsm_values.py over OpenSSL: the PVV of index 1 for the PIN 1234 and the
// account 123456789012, the PIN's length, the check value of the pair, and the account.
use crate::{finish, prepare};
use hsm_auth::Ledger;
use hsm_config::Config;
use hsm_rows::Module;
use hsm_text::Reply;
use std::alloc::Global;
use std::test::Fail;

const CONFIGURATION: &[u8] = br#"
version = 1
header = 4
officers = ["ba7816bf8f01cfea414140de5dae2223b00361a396177a9cb410ff61f20015ad",
            "2cf24dba5fb0a30e26e83b2ac5b9e29e1b161e5c1fa7425e73043362938b9824"]
console_port = 1500
accept = 8
lmk = "test"
host_ports = [1501]
"#;

fn module_of(alloc: Global) -> Result<Module, Fail> {
    match Config::read(alloc, CONFIGURATION) {
        Ok(config) => Ok(config.module([0; 32])),
        Err(_) => Err("configuration")?,
    }
}

// A message over a new ledger, and its answer.
fn answers(alloc: Global, text: &[u8], answer: &[u8]) -> Result<(), Fail> {
    let module = module_of(alloc)?;
    let mut ledger = Ledger::new(alloc)?;
    let mut reply = Reply::new();
    let plan = prepare(&module, text);
    let granted = ledger.step(0, &plan.ask());
    finish(&module, &plan, &granted, &mut reply);
    if reply.bytes() == answer {
        Ok(())
    } else {
        Err("answer")?
    }
}

#[test]
fn the_row_is_answered(rt: HostRuntime) -> Result<(), Fail> {
    let alloc = rt.alloc();
    answers(
        alloc,
        b"U32098F004A5488DBFBECB411DC94FF89AC9E30EA4EE088201234567890121",
        b"ZX0025040408D7B4123456789012",
    )?;
    answers(
        alloc,
        b"U32098F004A5488DBFBECB411DC94FF89AC9E30EA4EE088204000001234561",
        b"ZX14",
    )?;
    answers(
        alloc,
        b"U32098F004A5488DBFBECB411DC94FF89AC9E30EA4EE08820123456789012",
        b"ZX15",
    )
}
