//! How many grants a ledger holds, and how many notes.
ghost use Rattle.hsm_auth.specs.History.{CanAsk};

use hsm_auth::{Activity, Ask, Category, Grant, Granted, Kind, Ledger, Needs, Note};
use hsm_types::KeyType;
use std::test::Fail;

const CATEGORIES: [Category; 4] = [
    Category::Generate,
    Category::Import,
    Category::Export,
    Category::Component,
];

const TYPES: [KeyType; 9] = [
    KeyType::Zmk,
    KeyType::Zpk,
    KeyType::Tpk,
    KeyType::Cvk,
    KeyType::Tak,
    KeyType::Zak,
    KeyType::Bdk,
    KeyType::Zek,
    KeyType::Dek,
];

// The activity of this number. Those of the numbers 0 to 35 differ.
fn activity(number: usize) -> Activity {
    Activity {
        category: CATEGORIES[number / 9 % 4],
        ty: Some(TYPES[number % 9]),
        place: None,
        set: None,
    }
}

// To allow the activity of this number until it is cancelled.
fn without_end(number: usize) -> Ask
    ensures { CanAsk result }
{
    Ask::Authorise {
        activity: activity(number),
        minutes: 0,
    }
}

// The grant of the activity of this number, with this end.
fn grant(number: usize, end: u64) -> Grant {
    Grant {
        activity: activity(number),
        end,
    }
}

#[test]
fn the_32nd_grant_fits_and_the_33rd_does_not(rt: HostRuntime) -> Result<(), Fail> {
    let mut ledger = Ledger::new(rt.alloc())?;
    for number in 0..32 {
        assert_eq!(rt; ledger.step(100, &without_end(number)), Granted::Authorised);
    }
    assert_eq!(rt; ledger.step(100, &without_end(32)), Granted::Full);
    // One of the 32 again: the grant goes, and the new one stands at the end.
    let renewal = Ask::Authorise {
        activity: activity(7),
        minutes: 5,
    };
    assert_eq!(rt; ledger.step(100, &renewal), Granted::Authorised);
    assert_eq!(rt; ledger.step(100, &without_end(32)), Granted::Full);
    let mut wanted = Vec::new(rt.alloc());
    for number in (0..7).chain(8..32) {
        wanted.push(grant(number, 0))?;
    }
    wanted.push(grant(7, 400))?;
    match ledger.step(399, &Ask::Look) {
        Granted::Seen { grants, .. } => assert_eq!(rt; grants.as_slice(), wanted.as_slice()),
        _ => Err("a look is answered by what is seen")?,
    }
    // The renewed one ends, and another one fits.
    assert_eq!(rt; ledger.step(400, &without_end(32)), Granted::Authorised);
    assert_eq!(rt; ledger.step(400, &without_end(7)), Granted::Full);
    Ok(())
}

// The notes of the last entries.
fn notes(rt: &HostRuntime, ledger: &mut Ledger) -> Result<Vec<Note>, Fail> {
    match ledger.step(0, &Ask::Recent) {
        Granted::Recent { notes } => Ok(Vec::from_slice(rt.alloc(), &notes)?),
        _ => Err("the last notes are answered by notes")?,
    }
}

fn note(number: u64, moment: u64, kind: Kind, good: bool) -> Note {
    Note {
        number,
        moment,
        kind,
        good,
    }
}

#[test]
fn the_17th_note_drops_the_oldest(rt: HostRuntime) -> Result<(), Fail> {
    let mut ledger = Ledger::new(rt.alloc())?;
    let needs = Needs {
        first: Some(activity(0)),
        second: None,
    };
    // Each ask with its kind, and whether it is not refused.
    let asks = [
        (Ask::Use { needs, words: 3 }, Kind::Use, false),
        (without_end(0), Kind::Authorise, true),
        (Ask::Use { needs, words: 3 }, Kind::Use, true),
        (Ask::Look, Kind::Look, true),
        (
            Ask::Cancel {
                activity: activity(1),
            },
            Kind::Cancel,
            true,
        ),
        (Ask::CancelAll, Kind::CancelAll, true),
        (Ask::Use { needs, words: 3 }, Kind::Use, false),
        (Ask::Recent, Kind::Recent, true),
    ];
    let mut wanted = Vec::new(rt.alloc());
    for number in 0..16 {
        let (ask, kind, good) = &asks[number % 8];
        let moment = 100 + number as u64;
        ledger.step(moment, ask);
        wanted.push(note(number as u64, moment, *kind, *good))?;
    }
    assert_eq!(rt; notes(&rt, &mut ledger)?.as_slice(), wanted.as_slice());
    // The notes that were asked for left a note too, with the latest moment.
    wanted.push(note(16, 115, Kind::Recent, true))?;
    assert_eq!(rt; notes(&rt, &mut ledger)?.as_slice(), &wanted[1..]);
    Ok(())
}
