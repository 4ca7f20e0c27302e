//! Tests that outcomes are returned as they were appended to a list. Each kind is tested here, as no program needs a
//! list with all of its outcomes.

use jvms_machine::machine::{BadCause, BlockedOn, Outcome};
use outcome_list::OutcomeList;
use std::alloc::{AllocError, Global};
use std::process::Abort;
use std::test::Fail;

/// Outcomes of every kind. Some kinds are repeated with other numbers.
const OUTCOMES: [Outcome; 17] = [
    Outcome::Ran,
    Outcome::Blocked {
        on: BlockedOn::Join { thread: 7 },
    },
    Outcome::Raised,
    Outcome::Blocked {
        on: BlockedOn::Wait { reference: 6 },
    },
    Outcome::Blocked {
        on: BlockedOn::Monitor {
            reference: 5,
            owner: 1,
        },
    },
    Outcome::Ended { last: true },
    Outcome::Blocked {
        on: BlockedOn::Initialisation { class: 9, owner: 2 },
    },
    Outcome::Ended { last: false },
    Outcome::NoThread,
    Outcome::Bad {
        cause: BadCause::FellOff,
    },
    Outcome::Bad {
        cause: BadCause::OutOfProfile,
    },
    Outcome::Bad {
        cause: BadCause::Depth,
    },
    Outcome::Bad {
        cause: BadCause::Kind,
    },
    Outcome::Bad {
        cause: BadCause::Local,
    },
    Outcome::Blocked {
        on: BlockedOn::Initialisation { class: 3, owner: 4 },
    },
    Outcome::Blocked {
        on: BlockedOn::Monitor {
            reference: 8,
            owner: 6,
        },
    },
    Outcome::Ran,
];

fn put_in(list: &mut OutcomeList, outcomes: &[Outcome]) -> Result<(), AllocError> {
    for outcome in outcomes {
        list.push(*outcome)?;
    }
    Ok(())
}

fn assert_returned(
    rt: &impl Abort,
    alloc: Global,
    list: &OutcomeList,
    outcomes: &[Outcome],
) -> Result<(), Fail> {
    assert_eq!(rt; list.len(), outcomes.len());
    let found = list.outcomes(alloc)?;
    assert!(rt; found.as_slice() == outcomes);
    Ok(())
}

#[test]
fn outcomes_are_returned_as_they_were_put_in(rt: HostRuntime) -> Result<(), Fail> {
    let mut list = OutcomeList::new(rt.alloc());
    assert!(rt; list.is_empty());
    put_in(&mut list, &OUTCOMES)?;
    assert_returned(&rt, rt.alloc(), &list, &OUTCOMES)
}
