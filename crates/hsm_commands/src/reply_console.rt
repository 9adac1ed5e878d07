//! What a reply tells of the ledger, and keys in the clear.
ghost use Rattle.std.specs.Prelude.{◌≡◌, ◌+◌, ◌≤◌, ◌∷◌, [], ◌++◌, codes, length, map, decimal};
ghost use Rattle.hsm_nibbles.specs.Characters.{hex_of_bytes};
ghost use Rattle.hsm_tdes.specs.Tdes.{key_bytes};
ghost use Rattle.hsm_answers.specs.Values.{grant_text, note_text, kind_letter, verdict, live_of, notes_of, cancelled_of, spaced, counted, numbers_text};

use hsm_auth::{Grant, Granted, Kind, Note};
use hsm_tdes::Key;
use hsm_text::Reply;
use itoa::Buffer;

// Appends a number.
fn put_decimal(number: u64, reply: &mut Reply)
    requires { length reply.old ≤ 65400 }
    ensures text { reply.new ≡ reply.old ++ decimal number }
    ensures grown { length reply.new ≤ length reply.old + 40 }
{
    let mut digits = Buffer::new();
    reply.put(digits.format(number).as_bytes());
}

// The grants that were seen.
pub(crate) fn live_of(granted: &Granted) -> &[Grant]
    ensures grants { result.now ≡ live_of granted.now }
    ensures few { length result.now ≤ 32 }
{
    match granted {
        Granted::Seen { grants, .. } => grants.as_slice(),
        _ => &[],
    }
}

// The notes that were seen.
fn notes_of(granted: &Granted) -> &[Note]
    ensures notes { result.now ≡ notes_of granted.now }
    ensures few { length result.now ≤ 16 }
{
    match granted {
        Granted::Recent { notes } => notes.as_slice(),
        _ => &[],
    }
}

// Appends `activity=end` after one space.
fn put_grant(grant: &Grant, reply: &mut Reply)
    requires { length reply.old ≤ 65300 }
    ensures text { reply.new ≡ reply.old ++ (codes " " ++ grant_text grant.now) }
    ensures grown { length reply.new ≤ length reply.old + 80 }
{
    let activity = grant.activity.text();
    reply.put(b" ");
    reply.put(activity.as_slice());
    reply.put(b"=");
    put_decimal(grant.end, reply);
}

// Appends each grant.
fn put_each_grant(grants: &[Grant], reply: &mut Reply)
    requires few { length grants.now ≤ 32 }
    requires room { length reply.old ≤ 62000 }
    ensures text { reply.new ≡ reply.old ++ spaced (map grant_text grants.now) }
    ensures grown { length reply.new ≤ length reply.old + 2560 }
{
    for grant in grants {
        put_grant(grant, reply);
    }
}

// Appends the number of live grants and the grants.
pub(crate) fn put_grants(granted: &Granted, reply: &mut Reply)
    requires { length reply.old ≤ 61600 }
    ensures text { reply.new ≡ reply.old ++ counted (map grant_text (live_of granted.now)) }
    ensures grown { length reply.new ≤ length reply.old + 3000 }
{
    let grants = live_of(granted);
    put_decimal(grants.len() as u64, reply);
    put_each_grant(grants, reply);
}

// The letter of a note's kind.
fn kind_letter(kind: Kind) -> &'static [u8]
    ensures letter { result.now ≡ kind_letter kind }
    ensures short { length result.now ≤ 1 }
{
    match kind {
        Kind::Use => b"U",
        Kind::Authorise => b"A",
        Kind::Cancel => b"C",
        Kind::CancelAll => b"X",
        Kind::Look => b"L",
        Kind::Recent => b"R",
    }
}

// `+` for a good answer, else `-`.
fn verdict(good: bool) -> &'static [u8]
    ensures verdict { result.now ≡ verdict good }
    ensures short { length result.now ≤ 1 }
{
    if good { b"+" } else { b"-" }
}

// Appends `number:moment:kind:verdict` after one space.
fn put_note(note: &Note, reply: &mut Reply)
    requires { length reply.old ≤ 65300 }
    ensures text { reply.new ≡ reply.old ++ (codes " " ++ note_text note.now) }
    ensures grown { length reply.new ≤ length reply.old + 100 }
{
    reply.put(b" ");
    put_decimal(note.number, reply);
    reply.put(b":");
    put_decimal(note.moment, reply);
    reply.put(b":");
    reply.put(kind_letter(note.kind));
    reply.put(b":");
    reply.put(verdict(note.good));
}

// Appends each note.
fn put_each_note(notes: &[Note], reply: &mut Reply)
    requires few { length notes.now ≤ 16 }
    requires room { length reply.old ≤ 62000 }
    ensures text { reply.new ≡ reply.old ++ spaced (map note_text notes.now) }
    ensures grown { length reply.new ≤ length reply.old + 1600 }
{
    for note in notes {
        put_note(note, reply);
    }
}

// Appends the number of notes and the notes.
pub(crate) fn put_notes(granted: &Granted, reply: &mut Reply)
    requires { length reply.old ≤ 61600 }
    ensures text { reply.new ≡ reply.old ++ counted (map note_text (notes_of granted.now)) }
    ensures grown { length reply.new ≤ length reply.old + 3000 }
{
    let notes = notes_of(granted);
    put_decimal(notes.len() as u64, reply);
    put_each_note(notes, reply);
}

// Appends moment, random place and number of live grants, where they were seen.
pub(crate) fn put_numbers(granted: &Granted, reply: &mut Reply)
    requires { length reply.old ≤ 61600 }
    ensures text { reply.new ≡ reply.old ++ numbers_text granted.now }
    ensures grown { length reply.new ≤ length reply.old + 3000 }
{
    if let Granted::Seen {
        moment,
        place,
        grants,
    } = granted
    {
        put_decimal(*moment, reply);
        reply.put(b" ");
        put_decimal(*place, reply);
        reply.put(b" ");
        put_decimal(grants.len() as u64, reply);
    }
}

// How many grants were cancelled.
fn cancelled_of(granted: &Granted) -> u8
    ensures { result ≡ cancelled_of granted.now }
{
    match granted {
        Granted::Cancelled { count } => *count,
        _ => 0,
    }
}

// Appends how many grants were cancelled.
pub(crate) fn put_cancelled(granted: &Granted, reply: &mut Reply)
    requires { length reply.old ≤ 61600 }
    ensures text { reply.new ≡ reply.old ++ decimal (cancelled_of granted.now) }
    ensures grown { length reply.new ≤ length reply.old + 3000 }
{
    put_decimal(u64::from(cancelled_of(granted)), reply);
}

// Appends the bytes of a key in upper-case hexadecimal digits.
pub(crate) fn put_clear(key: &Key, reply: &mut Reply)
    requires { length reply.old ≤ 61600 }
    ensures text { reply.new ≡ reply.old ++ hex_of_bytes (key_bytes key.now) }
    ensures grown { length reply.new ≤ length reply.old + 3000 }
{
    for i in 0..key.parts() {
        reply.put_hex(&key.part(i));
    }
}
