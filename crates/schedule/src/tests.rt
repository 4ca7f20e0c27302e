//! Tests of the texts that spell schedules, and of what choosers choose.

use super::*;
use crate::round_robin::{Candidate, Turns};
use crate::staying::Staying;
use crate::threads::Threads;
use departures::Departure;
use jvms_machine::machine::ThreadId;
use std::alloc::Global;
use std::process::Abort;
use std::test::*;

/// Flags that decide which threads are enabled.
#[derive(Clone, Copy)]
struct Flags<'a> {
    enabled: &'a [bool],
    count: u32,
}

impl Threads for Flags<'_> {
    ghost use Rattle.std.specs.Prelude.{slice_get, false};
    ghost use Rattle.std.specs.Option.{unwrap_or};

    ghost count = { λ f. f.count };

    ghost passes = { λ f t. unwrap_or (slice_get f.enabled.now t) false };

    fn count(&self) -> u32 {
        self.count
    }

    fn is_enabled(&self, thread: ThreadId) -> bool {
        self.enabled.get(thread as usize).copied().unwrap_or(false)
    }
}

/// Checks the choices of a text's chooser, one after another, each among the threads that are enabled then.
fn are_chosen(
    rt: &impl Abort,
    alloc: Global,
    text: &str,
    turns: &[(&[bool], Option<ThreadId>)],
) -> Result<(), Fail> {
    let mut chooser = Chooser::parse(alloc, text)?.copy()?;
    for (enabled, chosen) in turns {
        let count = u32::try_from(enabled.len()).unwrap_or(0);
        let flags = Flags { enabled, count };
        assert_eq!(rt; chooser.choose(&flags), *chosen);
    }
    Ok(())
}

#[test]
fn refuses_what_spells_no_schedule(rt: HostRuntime) -> Result<(), Fail> {
    let texts = [
        "",
        "list",
        "rr",
        "seed",
        "list:1,",
        "list:,",
        "list:,1",
        "list:1,,2",
        "list: 1",
        "list:1 ",
        "list:1, 2",
        "list:+1",
        "list:-1",
        "list:a",
        "list:0x1",
        "list:4294967296",
        "list:1;2",
        "LIST:1",
        "List:1",
        " list:1",
        "rr:",
        "rr:0",
        "rr:000",
        "rr:1000001",
        "rr:+1",
        "rr:-1",
        "rr:1 ",
        "rr: 1",
        "rr:1,2",
        "rr:1:2",
        "RR:1",
        "rr:a",
        "rr:18446744073709551617",
        "seed:",
        "seed:1",
        "seed::",
        "seed:1:",
        "seed::1",
        "seed:1:2:3",
        "seed:1,2",
        "seed:+1:2",
        "seed:1:+2",
        "seed:18446744073709551616:1",
        "seed:1:18446744073709551616",
        "seed:1: 2",
        "Seed:1:2",
        "list:1\n",
        "rr:1\n",
        "seed:1:2\n",
        "list:\u{661}",
    ];
    for text in texts {
        assert!(rt; matches!(Chooser::parse(rt.alloc(), text), Err(ScheduleFault::Syntax)));
    }
    Ok(())
}

#[test]
fn refuses_what_writes_no_departures(rt: HostRuntime) -> Result<(), Fail> {
    let texts = [
        "stay",
        "stay:1",
        "stay:=1",
        "stay:1=",
        "stay:=",
        "stay:,",
        "stay:1=0,",
        "stay:,1=0",
        "stay:1=0,,2=1",
        "stay:2=0,1=1",
        "stay:1=0,1=1",
        "stay:0=0,2=1,1=2",
        "stay:+1=0",
        "stay:1=+0",
        "stay:1=-1",
        "stay: 1=0",
        "stay:1= 0",
        "stay:1=0 ",
        "stay:1=0, 2=1",
        "stay:1=0=2",
        "stay:1:0",
        "stay:1=0;2=1",
        "stay:a=0",
        "stay:1=4294967296",
        "stay:18446744073709551616=0",
        "Stay:1=0",
        "stay:1=0\n",
    ];
    for text in texts {
        assert!(rt; matches!(Chooser::parse(rt.alloc(), text), Err(ScheduleFault::Syntax)));
    }
    Ok(())
}

#[test]
fn refuses_what_writes_no_priorities(rt: HostRuntime) -> Result<(), Fail> {
    let texts = [
        "pct",
        "pct:",
        "pct:1",
        "pct:1:2",
        "pct:1:2:3",
        "pct:1:2:3:",
        "pct:1:2::4",
        "pct:1::3:4",
        "pct::2:3:4",
        "pct:1:2:3:4:5",
        "pct:1:2:0:4",
        "pct:1:2:65:4",
        "pct:1:2:3:0",
        "pct:1:2:3:4294967297",
        "pct:18446744073709551616:2:3:4",
        "pct:1:18446744073709551616:3:4",
        "pct:1:2:4294967299:4",
        "pct:1:2:3:18446744073709551620",
        "pct:+1:2:3:4",
        "pct:1:2:+3:4",
        "pct:1:2:3:+4",
        "pct:1:2:3:-4",
        "pct: 1:2:3:4",
        "pct:1:2:3:4 ",
        "pct:1,2,3,4",
        "pct:1:2:a:4",
        "Pct:1:2:3:4",
        "pct:1:2:3:4\n",
    ];
    for text in texts {
        assert!(rt; matches!(Chooser::parse(rt.alloc(), text), Err(ScheduleFault::Syntax)));
    }
    Ok(())
}

#[test]
fn a_list_gives_its_threads(rt: HostRuntime) -> Result<(), Fail> {
    let alloc = rt.alloc();
    let none: &[bool] = &[];
    are_chosen(&rt, alloc, "list:", &[(none, None), (none, None)])?;
    are_chosen(
        &rt,
        alloc,
        "list:4294967295",
        &[(none, Some(4294967295)), (none, None)],
    )?;
    let turns = [
        (none, Some(0)),
        (none, Some(7)),
        (none, Some(7)),
        (none, Some(12)),
        (none, None),
    ];
    are_chosen(&rt, alloc, "list:0,007,7,0000000000000000000000012", &turns)
}

#[test]
fn round_robin_passes_over_idle_threads(rt: HostRuntime) -> Result<(), Fail> {
    let turns = Turns {
        quantum: 1,
        thread: 0,
        turns: 1,
    };
    assert_eq!(rt; turns.candidate_beside(3, &[]), Some(1));
    assert_eq!(rt; turns.candidate_beside(3, &[false, true]), Some(2));
    assert_eq!(rt; turns.candidate_beside(3, &[false, true, true]), Some(0));
    assert_eq!(rt; turns.candidate_beside(3, &[true, true, true]), None);
    Ok(())
}

#[test]
fn round_robin_gives_each_thread_its_turns(rt: HostRuntime) -> Result<(), Fail> {
    let all: &[bool] = &[true, true, true];
    let turns = [
        (all, Some(0)),
        (all, Some(0)),
        (all, Some(1)),
        (all, Some(1)),
        (all, Some(2)),
        (all, Some(2)),
        (all, Some(0)),
        (all, Some(0)),
    ];
    are_chosen(&rt, rt.alloc(), "rr:2", &turns)?;
    are_chosen(&rt, rt.alloc(), "rr:0000000002", &turns)
}

#[test]
fn turns_alone_are_still_in_a_row(rt: HostRuntime) -> Result<(), Fail> {
    let alone: &[bool] = &[true, false, false];
    let both: &[bool] = &[true, false, true];
    let none: &[bool] = &[false, false, false];
    let turns = [
        (alone, Some(0)),
        (alone, Some(0)),
        (alone, Some(0)),
        (both, Some(2)),
        (none, None),
        (both, Some(2)),
        (both, Some(0)),
        (both, Some(0)),
        (alone, Some(0)),
        (both, Some(2)),
    ];
    are_chosen(&rt, rt.alloc(), "rr:2", &turns)
}

/// Expects the words of PCG's demonstration of pcg32, with state 42 and stream 54: a15c02b7 7b47f409 ba1d3330
/// 83d2f293 bfa4784b cbed606e.
#[test]
fn random_words_name_enabled_threads(rt: HostRuntime) -> Result<(), Fail> {
    let alloc = rt.alloc();
    let many = vec![in alloc; true; 1000]?;
    let all = many.as_slice();
    let none: &[bool] = &[false, false];
    let turns = [
        (all, Some(783)),
        (none, None),
        (all, Some(97)),
        (all, Some(824)),
        (all, Some(955)),
        (all, Some(955)),
        (all, Some(566)),
    ];
    are_chosen(&rt, alloc, "seed:42:54", &turns)?;
    let some: &[bool] = &[false, true, false, false, true, false, true];
    let turns = [
        (some, Some(1)),
        (some, Some(1)),
        (some, Some(6)),
        (some, Some(4)),
        (some, Some(4)),
        (some, Some(4)),
    ];
    are_chosen(&rt, alloc, "seed:0042:9223372036854775862", &turns)
}

#[test]
fn thread_0_alone_is_chosen_while_it_is_enabled(rt: HostRuntime) -> Result<(), Fail> {
    let cases: [(&[bool], Option<ThreadId>); 5] = [
        (&[true], Some(0)),
        (&[true, true], Some(0)),
        (&[false, true], None),
        (&[], None),
        (&[true, false, true], Some(0)),
    ];
    let mut chooser = Chooser::alone();
    for (enabled, chosen) in cases {
        let count = u32::try_from(enabled.len()).unwrap_or(0);
        assert_eq!(rt; chooser.choose(&Flags { enabled, count }), chosen);
    }
    Ok(())
}

#[test]
fn the_default_stays_with_its_thread(rt: HostRuntime) -> Result<(), Fail> {
    let all: &[bool] = &[true, true, true];
    let none: &[bool] = &[false, false, false];
    let turns = [
        (all, Some(0)),
        (all, Some(0)),
        (&[false, true, true], Some(1)),
        (all, Some(1)),
        (none, None),
        (all, Some(1)),
        (&[true, false, true], Some(2)),
        (&[true, true, false], Some(0)),
    ];
    are_chosen(&rt, rt.alloc(), "stay:", &turns)?;
    let third: &[bool] = &[false, false, true];
    let turns = [
        (third, Some(2)),
        (none, None),
        (all, Some(2)),
        (all, Some(1)),
    ];
    are_chosen(&rt, rt.alloc(), "stay:2=1", &turns)
}

#[test]
fn departures_are_made_at_their_positions(rt: HostRuntime) -> Result<(), Fail> {
    let all: &[bool] = &[true, true, true];
    let turns = [(all, Some(1)), (all, Some(1))];
    are_chosen(&rt, rt.alloc(), "stay:0=1", &turns)?;
    are_chosen(&rt, rt.alloc(), "stay:000=0001", &turns)?;
    are_chosen(
        &rt,
        rt.alloc(),
        "stay:0=1,18446744073709551615=4294967295",
        &turns,
    )?;
    let turns = [
        (all, Some(0)),
        (all, Some(0)),
        (all, Some(0)),
        (all, Some(1)),
        (&[true, false, true], Some(2)),
        (all, Some(2)),
        (all, Some(2)),
        (all, Some(0)),
        (all, Some(2)),
        (all, Some(2)),
        (&[true, true, false], Some(0)),
    ];
    are_chosen(&rt, rt.alloc(), "stay:3=1,7=0,8=2", &turns)
}

#[test]
fn choices_end_at_a_departure_that_is_not_enabled(rt: HostRuntime) -> Result<(), Fail> {
    let all: &[bool] = &[true, true, true];
    let turns = [
        (all, Some(0)),
        (&[true, false, true], Some(1)),
        (all, None),
        (all, None),
    ];
    are_chosen(&rt, rt.alloc(), "stay:1=1,2=2", &turns)?;
    let turns = [(all, Some(4294967295)), (all, None)];
    are_chosen(&rt, rt.alloc(), "stay:0=4294967295", &turns)
}

/// Returns the thread and the turns of a candidate.
fn predicted(candidate: Option<Candidate>) -> Option<(ThreadId, u64)> {
    let candidate = candidate?;
    Some((candidate.thread, candidate.turns))
}

#[test]
fn departures_predict_the_default(rt: HostRuntime) -> Result<(), Fail> {
    let all = Flags {
        enabled: &[true, true, true],
        count: 3,
    };
    let mut staying = Staying::parse(rt.alloc(), "2=1,3=2")?;
    assert_eq!(rt; predicted(staying.candidate(&all)), Some((0, 2)));
    assert_eq!(rt; staying.candidate_beside(3, &[]), Some(0));
    assert_eq!(rt; staying.candidate_beside(3, &[true, true]), Some(2));
    assert_eq!(rt; staying.candidate_beside(3, &[true, true, true]), None);
    staying.count_times(0, 2);
    assert_eq!(rt; predicted(staying.candidate(&all)), None);
    assert_eq!(rt; staying.candidate_beside(3, &[]), None);
    assert_eq!(rt; staying.next(&all), Some(1));
    assert_eq!(rt; predicted(staying.candidate(&all)), None);
    assert_eq!(rt; staying.next(&all), Some(2));
    assert_eq!(rt; predicted(staying.candidate(&all)), Some((2, u64::MAX)));
    let two = Flags { count: 2, ..all };
    assert_eq!(rt; predicted(staying.candidate(&two)), None);
    Ok(())
}

#[test]
fn departures_make_a_chooser(rt: HostRuntime) -> Result<(), Fail> {
    let first = Departure {
        position: 1,
        thread: 2,
    };
    let second = Departure {
        position: 2,
        thread: 0,
    };
    let departures = vec![in rt.alloc(); first, second]?;
    let mut chooser = Chooser::staying(rt.alloc(), departures)?;
    let enabled: &[bool] = &[true, true, true];
    for chosen in [0, 2, 0, 0] {
        assert_eq!(rt; chooser.choose(&Flags { enabled, count: 3 }), Some(chosen));
    }
    Ok(())
}

/// Expects the threads 5, 4, 2, 0, 3 and 1 in falling order of the words of PCG's demonstration.
#[test]
fn the_highest_priority_is_chosen(rt: HostRuntime) -> Result<(), Fail> {
    let all: &[bool] = &[true; 6];
    let turns = [
        (all, Some(5)),
        (all, Some(5)),
        (&[true, true, true, true, true, false], Some(4)),
        (&[true, true, true, true], Some(2)),
        (&[true, true, false, true], Some(0)),
        (&[false, true, false, true, false, false], Some(3)),
        (&[false, true, false, false, false, false], Some(1)),
        (&[false; 6], None),
        (all, Some(5)),
    ];
    are_chosen(&rt, rt.alloc(), "pct:42:54:1:1", &turns)?;
    are_chosen(
        &rt,
        rt.alloc(),
        "pct:0042:9223372036854775862:01:4294967296",
        &turns,
    )
}

/// Expects changes at turns that are words of PCG's demonstration modulo N. The words after them order the threads.
#[test]
fn changes_move_the_threads_of_their_turns(rt: HostRuntime) -> Result<(), Fail> {
    let all: &[bool] = &[true; 4];
    // The first change is at turn 3, and the second at turn 2.
    let turns = [
        (all, Some(3)),
        (all, Some(3)),
        (all, Some(3)),
        (all, Some(2)),
        (all, Some(0)),
        (&[false, true, true, true], Some(1)),
        (&[false, false, true, true], Some(3)),
        (&[false, false, true, false], Some(2)),
    ];
    are_chosen(&rt, rt.alloc(), "pct:42:54:3:5", &turns)?;
    // The first change is at turn 3, and the second at turn 7.
    let turns = [
        (all, Some(3)),
        (all, Some(3)),
        (all, Some(3)),
        (all, Some(3)),
        (all, Some(2)),
        (all, Some(2)),
        (all, Some(2)),
        (all, Some(2)),
        (all, Some(0)),
        (&[false, false, true, true], Some(2)),
        (&[false, false, false, true], Some(3)),
    ];
    are_chosen(&rt, rt.alloc(), "pct:42:54:3:10", &turns)?;
    // Both changes are at turn 1.
    let turns = [(all, Some(3)), (all, Some(3)), (all, Some(2))];
    are_chosen(&rt, rt.alloc(), "pct:42:54:3:2", &turns)
}

#[test]
fn a_turn_without_a_thread_is_not_counted(rt: HostRuntime) -> Result<(), Fail> {
    let all: &[bool] = &[true; 4];
    let none: &[bool] = &[false; 4];
    let turns = [
        (none, None),
        (all, Some(3)),
        (none, None),
        (all, Some(3)),
        (none, None),
        (all, Some(1)),
        (&[false, false, false, true], Some(3)),
    ];
    are_chosen(&rt, rt.alloc(), "pct:42:54:2:2", &turns)
}

#[test]
fn a_list_of_enabled_threads_has_the_same_choices(rt: HostRuntime) -> Result<(), Fail> {
    let mut chooser = Chooser::parse(rt.alloc(), "pct:42:54:3:5")?;
    for chosen in [3, 3, 3, 2] {
        assert_eq!(rt; chooser.is_seeded(), true);
        assert_eq!(rt; chooser.next_by_word(&[0, 1, 2, 3]), Some(chosen));
    }
    assert_eq!(rt; chooser.is_seeded(), true);
    assert_eq!(rt; chooser.next_by_word(&[]), None);
    assert_eq!(rt; chooser.is_seeded(), true);
    assert_eq!(rt; chooser.next_by_word(&[1, 2, 3]), Some(1));
    Ok(())
}
