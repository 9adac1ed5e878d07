// What faults print.
use hsm_lmk::{LmkFault, OpenFault};
use hsm_mac::Uneven;
use hsm_pinblock::{BlockFault, PinFault};
use std::test::Fail;

#[test]
fn texts(rt: HostRuntime) -> Result<(), Fail> {
    let alloc = rt.alloc();
    let text = format!(in alloc;
        "{}; {}; {}; {}",
        LmkFault::Parity(19),
        OpenFault::Scheme,
        OpenFault::Length,
        OpenFault::Parity
    )?;
    assert_eq!(rt;
        text.as_str(),
        "LMK pair 19 has a byte of even parity; \
         no key text of this type has this scheme; \
         no key of this type has so many parts; \
         the key has a byte of even parity"
    );
    let text = format!(in alloc;
        "{}; {}; {}; {}; {}",
        BlockFault::Control,
        BlockFault::Length,
        BlockFault::Body,
        PinFault::Invalid,
        Uneven
    )?;
    assert_eq!(rt;
        text.as_str(),
        "the first digit of the PIN block is not its format's control; \
         the length of the PIN is not 4 to 12; \
         a digit of the PIN or of the fill is not allowed; \
         the text holds no PIN for this account; \
         the data is empty or cannot be padded to whole blocks"
    );
    Ok(())
}
