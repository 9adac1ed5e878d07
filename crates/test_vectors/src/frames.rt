// A stream of frames, cut in pieces.
use hsm_frame::{Frames, Next};
use std::test::Fail;

#[test]
fn frames(rt: HostRuntime) -> Result<(), Fail> {
    let mut frames = Frames::open(rt.alloc(), 2)?;
    assert_eq!(rt; frames.feed(b"\x00\x03ab"), 4);
    assert_eq!(rt; frames.next(), Next::NotYet);
    assert_eq!(rt; frames.feed(b"c\x00\x01d"), 4);
    assert_eq!(rt; frames.next(), Next::Message(b"abc"));
    assert_eq!(rt; frames.held(), 3);
    assert_eq!(rt; frames.next(), Next::Short(1));
    frames.reset();
    assert_eq!(rt; frames.held(), 0);
    Ok(())
}
