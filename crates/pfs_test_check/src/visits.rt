//! A rule asked of all entries of a report, by the numbers of its events: those of two sessions in two phases.

use pfs_check_cut::cut_report;
use pfs_check_visits::{Visited, ask_report, visit_numbers};
use pfs_check_walk::EventNumbers;
use pfs_journal::read;
use pfs_script::Script;
use std::alloc::Global;
use std::test::Fail;

/// A SELECT and a transaction of one session, one of another, and a second of the first in the next phase.
const SCRIPT: &[u8] =
    b"consumer events_stages_current YES\nphase\nsession 1 v h\nsql SELECT NAME FROM setup_consumers WHERE NAME LIKE 'events\\_%\\_current'\nstart transaction rw\nend\nsession 2 w h\nstart transaction rw\nend\nphase\nsession 1\nstart transaction rw\nend\n";

/// Lines 1 to 35: the journals of the first phase, of 15 and of 12 entries.
const FIRST_PHASE: &[u8] =
    b"pfs-report 1\nphase 1\nsession 1\nconnect 1 0 0 0 0\ntag 1 1\ntag 33 1\ntag 65 1\ntag 97 1\nset 1 1 3\nquery\nsaw 0 0\nrows 4\nrow 'events_stages_current'\nrow 'events_statements_current'\nrow 'events_transactions_current'\nrow 'events_waits_current'\nstart 1 attributed 0 1 0 -\nring 8465 1\nend 1 1 0 1\nadd 191 1\nring 8465 2\nring 8496 1\nsession 2\nconnect 2 1 1 1 0\ntag 2 1\ntag 34 1\ntag 66 1\ntag 97 2\nset 2 1 3\nstart 1 attributed 0 1 0 -\nring 8521 1\nend 1 1 0 1\nadd 255 1\nring 8521 2\nring 8552 1\n";

/// A table between the phases, and what follows, with the first line that has a wrong number (0: none has).
const AFTER_FIRST_PHASE: [(&[u8], u64); 3] = [
    (
        b"final\ntable users\nrow 'v' 1 1\nrow 'w' 1 1\nphase 2\nsession 1\nstart 2 attributed 0 1 0 -\nring 8465 3\nend 2 2 0 1\nadd 191 2\nring 8465 4\nring 8497 1\nfinal\nend\n",
        0,
    ),
    // Its second event has the number of its first.
    (
        b"final\ntable users\nrow 'v' 1 1\nrow 'w' 1 1\nphase 2\nsession 1\nstart 1 attributed 0 1 0 -\nring 8465 3\nend 1 1 0 1\nadd 191 2\nring 8465 4\nring 8497 1\nfinal\nend\n",
        42,
    ),
    // It ends after an event that was never drawn.
    (
        b"final\ntable users\nrow 'v' 1 1\nrow 'w' 1 1\nphase 2\nsession 1\nstart 2 attributed 0 1 0 -\nring 8465 3\nend 2 3 0 1\nadd 191 2\nring 8465 4\nring 8497 1\nfinal\nend\n",
        44,
    ),
];

/// The line that is told, 0 where all numbers are the next ones; None where a text isn't read or cut.
fn wrong_number(alloc: Global, report: &[u8]) -> Option<u64> {
    let Ok(script) = Script::read(alloc, SCRIPT) else {
        return None;
    };
    let Ok(report) = read(alloc, report) else {
        return None;
    };
    let Ok(cuts) = cut_report(alloc, script.phases.as_slice(), report.parts()) else {
        return None;
    };
    let mut numbers = EventNumbers;
    match ask_report(alloc, &mut numbers, cuts.as_slice(), report.parts()) {
        Ok(None) => Some(0),
        Ok(Some(line)) => Some(line),
        Err(_) => None,
    }
}

#[test]
fn a_wrong_number_is_told_by_its_line(rt: HostRuntime) -> Result<(), Fail> {
    for (end, line) in &AFTER_FIRST_PHASE {
        let mut report = Vec::from_slice(rt.alloc(), FIRST_PHASE)?;
        report.extend_from_slice(end)?;
        assert_eq!(rt; wrong_number(rt.alloc(), report.as_slice()), Some(*line));
    }
    Ok(())
}

// 15 in the first journal, 12 in the second, 6 in the third.
#[test]
fn all_entries_are_visited(rt: HostRuntime) -> Result<(), Fail> {
    let (end, _) = AFTER_FIRST_PHASE[0];
    let mut report = Vec::from_slice(rt.alloc(), FIRST_PHASE)?;
    report.extend_from_slice(end)?;
    let Ok(script) = Script::read(rt.alloc(), SCRIPT) else {
        return Err(Fail::from("the script is read"));
    };
    let Ok(report) = read(rt.alloc(), report.as_slice()) else {
        return Err(Fail::from("the report is read"));
    };
    let Ok(cuts) = cut_report(rt.alloc(), script.phases.as_slice(), report.parts()) else {
        return Err(Fail::from("the report is cut"));
    };
    let Ok(visited) = visit_numbers(rt.alloc(), cuts.as_slice(), report.parts()) else {
        return Err(Fail::from("there is memory"));
    };
    assert_eq!(rt; visited, Visited::Kept(33));
    Ok(())
}
