//! The messages of a made script, and the lines that send them.

ghost use Rattle.std.specs.Prelude.{◌≡◌, ◌+◌, ◌%◌, ◌*◌, ◌<◌, ◌≤◌, ◌++◌, length, map};
ghost use Rattle.hsm_config.specs.Rules.{test_pairs};
ghost use Rattle.hsm_lmk.specs.Sealing.{pair_key};
ghost use Rattle.hsm_make.specs.Messages.{frame_lines, host_frame, host_text, kind_of, message_lines, piece_line, sealed_key};

use arrayvec::ArrayVec;
use hsm_frame::frame_into;
use hsm_lmk::{LmkSet, seal};
use hsm_tdes::Key;
use hsm_text::Reply;
use hsm_types::{KeyType, Scheme};

// The text of the key 0123456789ABCDEF, as a ZPK in scheme Z under the test set.
#[tactic(auto, unfolding(crate::specs::Messages::sealed_key))]
pub(crate) fn sealed_key(test_set: &LmkSet) -> [u8; 8]
    requires { test_set.now ≡ map pair_key test_pairs }
    ensures { result ≡ sealed_key }
{
    let key = Key::one(&[0x01, 0x23, 0x45, 0x67, 0x89, 0xAB, 0xCD, 0xEF]);
    let mut text = [0; 8];
    seal(test_set, KeyType::Zpk, Scheme::Z, &key, &mut text);
    text
}

// Room for a message, its frame and its lines.
#[derive(Drop)]
pub(crate) struct Buffers {
    message: Reply,
    frame: ArrayVec<u8, 65537>,
    pub(crate) lines: Reply,
}

impl Buffers {
    pub(crate) fn new() -> Buffers {
        Buffers {
            message: Reply::new(),
            frame: ArrayVec::new(),
            lines: Reply::new(),
        }
    }

    // Puts the lines of the message of x in the place of what was there.
    #[tactic(auto, unfolding(crate::specs::Messages::message_lines))]
    pub(crate) fn make_lines(&mut self, key: &[u8; 8], x: u32)
        requires { key.now ≡ sealed_key }
        ensures lines { self.new.lines ≡ message_lines x }
    {
        self.lines.clear();
        let kind = x / 65536 % 5;
        if kind == 4 {
            self.lines.put(b"C GC 001 Z\n");
        } else {
            self.make_frame(key, kind, x);
            put_frame_lines(1 + x as usize % 7, self.frame.as_slice(), &mut self.lines);
        }
    }

    // Puts the frame of the message of x of this kind in the place of what was there.
    fn make_frame(&mut self, key: &[u8; 8], kind: u32, x: u32)
        requires { key.now ≡ sealed_key }
        ensures frame { self.new.frame.items ≡ host_frame kind x }
        ensures short { length self.new.frame.items ≤ 1000 }
        ensures lines { self.new.lines ≡ self.old.lines }
    {
        self.message.clear();
        self.message.put(b"0001");
        put_host_text(key, kind, x, &mut self.message);
        frame_into(self.message.bytes(), &mut self.frame);
    }
}

// Appends what a host sends of this kind.
fn put_host_text(key: &[u8; 8], kind: u32, x: u32, message: &mut Reply)
    requires key { key.now ≡ sealed_key }
    requires room { length message.old ≤ 100 }
    ensures text { message.new ≡ message.old ++ host_text kind x }
    ensures short { length message.new ≤ length message.old + 100 }
{
    if kind == 0 {
        message.put(b"B20008");
        message.put_hex(&x.to_be_bytes());
    } else if kind == 1 {
        message.put(b"A00001U");
    } else if kind == 2 {
        message.put(b"JA12345678901204");
    } else {
        message.put(b"BU010");
        message.put_hex(key);
    }
}

// Appends the lines of a frame in two pieces, of which the first has so many bytes.
fn put_frame_lines(first: usize, frame: &[u8], lines: &mut Reply)
    requires first { first ≤ length frame.now }
    requires short { length frame.now ≤ 1000 }
    requires room { length lines.old ≤ 1000 }
    ensures { lines.new ≡ lines.old ++ frame_lines first frame.now }
{
    put_piece(&frame[..first], lines);
    put_piece(&frame[first..], lines);
}

// Appends a line with a piece for the first host lane.
fn put_piece(piece: &[u8], lines: &mut Reply)
    requires short { length piece.now ≤ 1000 }
    requires room { length lines.old ≤ 4000 }
    ensures line { lines.new ≡ lines.old ++ piece_line piece.now }
    ensures length { length lines.new ≡ length lines.old + 2 * length piece.now + 4 }
{
    lines.put(b"L1 ");
    lines.put_hex(piece);
    lines.put(b"\n");
}
