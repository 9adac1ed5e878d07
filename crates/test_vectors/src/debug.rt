// What `{:?}` prints of secrets: the name of the type alone.
use hsm_lmk::LmkSet;
use hsm_tdes::Key;
use hsm_types::Pin;
use std::test::Fail;

#[test]
fn secrets_are_not_printed(rt: HostRuntime) -> Result<(), Fail> {
    let alloc = rt.alloc();
    let key = Key::of(&[0x31; 24]).ok_or("a key")?;
    let pin = Pin::of(&[1, 2, 3, 4]).ok_or("a PIN")?;
    let set = LmkSet::of(&[[0x31; 16]; 20]).ok().ok_or("a set")?;
    let text = format!(in alloc; "{:?} {:?} {:?}", key, pin, set)?;
    assert_eq!(rt; text.as_str(), "Key Pin LmkSet");
    assert!(rt; !text.as_bytes().iter().any(|c| c.is_ascii_digit()));
    Ok(())
}
