//! Reads a script.

ghost use Rattle.std.specs.Prelude.{◌≡◌, ◌+◌, ◌<◌, ◌≤◌, ◌^◌, ◌∷◌, ◌==◌, length, position, IfSome};
ghost use Rattle.std.specs.List.{list_all};
ghost use Rattle.std.specs.Option.{option_map};
ghost use Rattle.hsm_session.specs.Scripts.{console_of, is_blank, is_number, is_printable, line_of, lines, moment_of, lane_number, number_within, piece_of, script_of, some_bytes};
ghost use Rattle.std.specs.Char.{is_ascii_digit};
ghost use Rattle.hex.specs.Hex.{decode_of};
ghost use Rattle.hsm_session.specs.Reading.{ReadsBytes, ReadsLine, ReadsScript, said_of};

use crate::script::ScriptFault;
use hex::FromHexError;
use hsm_auth::MAX_MOMENT;
use std::alloc::{AllocError, Global};

/// What a line of a script says.
#[derive(Drop)]
pub enum Line {
    /// Nothing: it is empty, or a remark.
    Skip,
    /// The moment from here on, in seconds, at most `2^40`.
    Moment(u64),
    /// A piece of the stream of a host lane.
    Piece {
        /// The number of the lane, counted from 1.
        lane: u32,
        /// The bytes of the piece, of which there is at least one.
        bytes: Vec<u8>,
    },
    /// The text of a console message, 1 to 1,000 characters.
    Console(Vec<u8>),
}

/// Reads a script for a module with so many host lanes. `Line` comes exactly where a line does not read, and tells the first such line,
/// counted from 1. `Out` does not come.
pub fn read_script(alloc: Global, hosts: u8, script: &[u8]) -> Result<Vec<Line>, ScriptFault>
    ensures { ReadsScript (script_of hosts script.now) result }
{
    let mut lines = Vec::new(alloc);
    let mut number = 1;
    let mut rest = script;
    'lines: while !rest.is_empty() {
        let (text, later) = cut_line(rest);
        match read_line(alloc, hosts, text) {
            Ok(Some(line)) => match lines.push(line) {
                Ok(()) => {}
                Err(_) => return Err(ScriptFault::Memory),
            },
            Ok(None) => return Err(ScriptFault::Line(number)),
            Err(_) => return Err(ScriptFault::Memory),
        }
        number += 1;
        rest = later;
    }
    Ok(lines)
}

// The first line of a text, and what follows it.
fn cut_line(text: &[u8]) -> (&[u8], &[u8])
    requires { 0 < length text.now }
    ensures lines { lines text.now ≡ result.0.now ∷ lines result.1.now }
    ensures shorter { length result.1.now < length text.now }
{
    let mut at = 0;
    'bytes: while at < text.len() {
        if text[at] == b'\n' {
            return (&text[..at], &text[at + 1..]);
        }
        at += 1;
    }
    (text, &[])
}

#[tactic(auto, unfolding(crate::specs::Scripts::line_of))]
fn read_line(alloc: Global, hosts: u8, line: &[u8]) -> Result<Option<Line>, AllocError>
    ensures { ReadsLine (line_of hosts line.now) result }
{
    if is_blank(line) {
        return Ok(Some(Line::Skip));
    }
    if let Some(text) = line.strip_prefix(b"T ".as_slice()) {
        return Ok(read_moment(text));
    }
    if let Some(text) = line.strip_prefix(b"C ".as_slice()) {
        return read_console(alloc, text);
    }
    if let Some(text) = line.strip_prefix(b"L".as_slice()) {
        return read_piece(alloc, hosts, text);
    }
    Ok(None)
}

fn is_blank(line: &[u8]) -> bool
    ensures { result ≡ is_blank line.now }
{
    line.is_empty() || line.starts_with(b"#")
}

#[tactic(auto, unfolding(crate::specs::Scripts::moment_of))]
fn read_moment(text: &[u8]) -> Option<Line>
    ensures { option_map said_of result ≡ moment_of text.now }
{
    match number_within(text, MAX_MOMENT) {
        Some(moment) => Some(Line::Moment(moment)),
        None => None,
    }
}

fn all_printable(text: &[u8]) -> bool
    ensures { result ≡ list_all is_printable text.now }
{
    text.iter().all(|c| b' ' <= *c && *c <= b'~')
}

#[tactic(auto, unfolding(crate::specs::Scripts::console_of))]
fn read_console(alloc: Global, text: &[u8]) -> Result<Option<Line>, AllocError>
    ensures { ReadsLine (console_of text.now) result }
{
    if 1 <= text.len() && text.len() <= 1000 && all_printable(text) {
        match Vec::from_slice(alloc, text) {
            Ok(text) => Ok(Some(Line::Console(text))),
            Err(e) => Err(e),
        }
    } else {
        Ok(None)
    }
}

#[tactic(auto, unfolding(crate::specs::Scripts::piece_of))]
fn read_piece(alloc: Global, hosts: u8, text: &[u8]) -> Result<Option<Line>, AllocError>
    ensures { ReadsLine (piece_of hosts text.now) result }
{
    let Some(at) = find_space(text) else {
        return Ok(None);
    };
    let (number, _) = text.split_at(at);
    let (_, digits) = text.split_at(at + 1);
    let Some(lane) = read_lane(hosts, number) else {
        return Ok(None);
    };
    match read_bytes(alloc, digits) {
        Ok(Some(bytes)) => Ok(Some(Line::Piece { lane, bytes })),
        Ok(None) => Ok(None),
        Err(e) => Err(e),
    }
}

fn find_space(text: &[u8]) -> Option<usize>
    ensures place { result ≡ position (λ c. c == 32) text.now }
    ensures within { IfSome result (λ at. at < length text.now) }
{
    text.iter().position(|c| *c == b' ')
}

// The number of a host lane.
fn read_lane(hosts: u8, text: &[u8]) -> Option<u32>
    ensures { result ≡ lane_number hosts text.now }
{
    match number_within(text, u64::from(hosts)) {
        Some(0) | None => None,
        Some(number) => Some(number as u32),
    }
}

// At least one byte in hexadecimal digits.
fn read_bytes(alloc: Global, digits: &[u8]) -> Result<Option<Vec<u8>>, AllocError>
    ensures { ReadsBytes (some_bytes (decode_of digits.now)) result }
{
    match hex::decode(alloc, digits) {
        Ok(bytes) if bytes.is_empty() => Ok(None),
        Ok(bytes) => Ok(Some(bytes)),
        Err(FromHexError::OutOfMemory) => Err(AllocError),
        Err(_) => Ok(None),
    }
}

fn is_number(text: &[u8]) -> bool
    ensures { result ≡ is_number text.now }
{
    if text == b"0".as_slice() {
        return true;
    }
    1 <= text.len() && all_digits(text) && !text.starts_with(b"0")
}

fn all_digits(text: &[u8]) -> bool
    ensures { result ≡ list_all is_ascii_digit text.now }
{
    text.iter().all(|c| c.is_ascii_digit())
}

/// The decimal number of at most so much, without leading zeros, that a text is.
#[tactic(auto, unfolding(crate::specs::Scripts::number_within))]
pub fn number_within(text: &[u8], most: u64) -> Option<u64>
    requires { most ≤ 2 ^ 40 }
    ensures value { result ≡ number_within most text.now }
    ensures within { IfSome result (λ number. number ≤ most) }
{
    if !is_number(text) {
        return None;
    }
    let mut number = 0;
    'digits: for digit in text {
        number = number * 10 + u64::from(digit.saturating_sub(b'0'));
        if number > most {
            return None;
        }
    }
    Some(number)
}
