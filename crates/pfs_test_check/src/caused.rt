//! Causes in SELECTs that read the store, which the tenth rule asks and the ninth doesn't.

use pfs_check_caused::{CauseRule, judge_causes, judge_query_causes};
use pfs_check_cut::cut_report;
use pfs_journal::read;
use pfs_script::Script;
use std::alloc::Global;
use std::test::Fail;

/// A transaction, and a SELECT from the history of stages behind it.
const SCRIPT: &[u8] =
    b"phase\nsession 1 v h\nstart transaction rw\nend\nsql SELECT EVENT_ID FROM events_stages_history\n";

/// Lines 1 to 16, up to the SELECT's first reading.
const BEFORE: &[u8] =
    b"pfs-report 1\nphase 1\nsession 1\nconnect 1 0 0 0 0\ntag 1 1\ntag 33 1\ntag 65 1\ntag 97 1\nset 1 1 3\nstart 1 attributed 0 1 0 -\nring 8465 1\nend 1 1 0 1\nadd 191 1\nring 8465 2\nring 8496 1\nquery\n";

const AFTER: &[u8] = b"rows 0\nfinal\nend\n";

/// A reading, and the line that is told, 0 where it shows its cause.
const READINGS: [(&[u8], u64); 4] = [
    // A place that nobody put to.
    (b"vacant 8476\n", 0),
    // One that the session itself put to.
    (b"vacant 8496\n", 17),
    // It was busy: a word that nobody had in hand.
    (b"busy 8496 5 5\n", 17),
    // A second one.
    (b"vacant 8476\nvacant 8496\n", 18),
];

/// The lines that are told by the ninth rule and by the tenth, each 0 where the rule's causes are shown; None where a
/// text isn't read or cut.
fn wrong_causes(alloc: Global, report: &[u8]) -> Option<(u64, u64)> {
    let Ok(script) = Script::read(alloc, SCRIPT) else {
        return None;
    };
    let Ok(report) = read(alloc, report) else {
        return None;
    };
    let Ok(cuts) = cut_report(alloc, script.phases.as_slice(), report.parts()) else {
        return None;
    };
    let Ok(events) = judge_causes(alloc, cuts.as_slice(), report.parts()) else {
        return None;
    };
    let Ok(queries) = judge_query_causes(alloc, cuts.as_slice(), report.parts()) else {
        return None;
    };
    Some((line_of(events), line_of(queries)))
}

fn line_of(rule: CauseRule) -> u64 {
    match rule {
        CauseRule::Kept => 0,
        CauseRule::Wrong(line) => line,
    }
}

#[test]
fn a_cause_in_a_select_is_asked_by_the_tenth_rule(rt: HostRuntime) -> Result<(), Fail> {
    for (reading, line) in &READINGS {
        let mut report = Vec::from_slice(rt.alloc(), BEFORE)?;
        report.extend_from_slice(reading)?;
        report.extend_from_slice(AFTER)?;
        assert_eq!(rt;
            wrong_causes(rt.alloc(), report.as_slice()),
            Some((0, *line))
        );
    }
    Ok(())
}
