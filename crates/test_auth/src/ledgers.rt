//! Texts of activities, and when a grant ends.
ghost use Rattle.hsm_auth.specs.History.{CanAsk};

use hsm_auth::{Activity, Ask, Category, Granted, Ledger, Needs, Place};
use std::test::Fail;

#[test]
fn texts_name_activities_or_nothing(rt: HostRuntime) {
    let texts: [(&[u8], bool); 21] = [
        (b"generate", true),
        (b"import.00A", true),
        (b"export.402.host", true),
        (b"component.console", true),
        (b"pin.clear", true),
        (b"pin.clear.host", true),
        (b"", false),
        (b"pin", false),
        (b"generate.", false),
        (b"Generate", false),
        (b"import.00a", false),
        (b"export.004", false),
        (b"export.host.402", false),
        (b"pin.clear.001", false),
        (b"component.hosts", false),
        (b"generate.lmk00", true),
        (b"import.00A.lmk03", true),
        (b"pin.clear.console.lmk01", true),
        (b"export.402.lmk04", false),
        (b"component.lmk1", false),
        (b"pin.clear.lmk02.host", false),
    ];
    for (text, named) in texts {
        let printed = Activity::read(text).map(|activity| activity.text());
        assert_eq!(rt; printed.is_some(), named);
        assert_eq!(rt;
            printed.is_some_and(|printed| printed.as_slice() == text),
            named
        );
    }
}

fn pin_clear(place: Option<Place>) -> Activity {
    Activity {
        category: Category::PinClear,
        ty: None,
        place,
        set: None,
    }
}

fn clear_need() -> Ask
    ensures { CanAsk result }
{
    Ask::Use {
        needs: Needs {
            first: Some(pin_clear(Some(Place::Host))),
            second: None,
        },
        words: 4,
    }
}

#[test]
fn a_grant_ends_at_its_moment(rt: HostRuntime) -> Result<(), Fail> {
    let mut ledger = Ledger::new(rt.alloc())?;
    let activity = pin_clear(Some(Place::Host));
    let minutes = 1;
    assert_eq!(rt;
        ledger.step(100, &Ask::Authorise { activity, minutes }),
        Granted::Authorised
    );
    if let Granted::Seen {
        moment,
        place,
        grants,
    } = ledger.step(90, &Ask::Look)
    {
        assert_eq!(rt; moment, 100);
        assert_eq!(rt; place, 0);
        assert_eq!(rt; grants.len(), 1);
        assert!(rt;
            grants
                .iter()
                .all(|grant| grant.end == 160 && grant.activity == activity)
        );
    } else {
        assert!(rt; false, "a look is answered by what is seen");
    }
    assert_eq!(rt; ledger.step(159, &clear_need()), Granted::Use { first: 0 });
    assert_eq!(rt; ledger.step(160, &clear_need()), Granted::Refused);
    assert_eq!(rt;
        ledger.step(0, &Ask::CancelAll),
        Granted::Cancelled { count: 0 }
    );
    let needs = Needs::default();
    assert_eq!(rt;
        ledger.step(0, &Ask::Use { needs, words: 1 }),
        Granted::Use { first: 4 }
    );
    Ok(())
}
