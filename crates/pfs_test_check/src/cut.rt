//! The cut of a report: the blocks of one that its script allows, or the first line that no report of the script has there.

use pfs_check_cut::{ShapeFault, cut_report};
use pfs_journal::read;
use pfs_script::Script;
use std::alloc::Global;
use std::test::Fail;

/// The line at which the cut of a report stops, 0 where it is cut; None where a text isn't read, or memory runs out.
pub(crate) fn stops_at(alloc: Global, script: &[u8], report: &[u8]) -> Option<u64> {
    let Ok(script) = Script::read(alloc, script) else {
        return None;
    };
    let Ok(report) = read(alloc, report) else {
        return None;
    };
    match cut_report(alloc, script.phases.as_slice(), report.parts()) {
        Ok(_) => Some(0),
        Err(ShapeFault::Line(line)) => Some(line),
        Err(ShapeFault::NoMemory) => None,
    }
}

/// Two transactions, of which the second stays open, put to their rings.
const TRANSACTIONS: &[u8] =
    b"consumer events_stages_current YES\nphase\nsession 1 v h\nstart transaction rw\nend\nstart transaction rw\n";

const TRANSACTIONS_REPORT: &[u8] =
    b"pfs-report 1\nphase 1\nsession 1\nconnect 1 0 0 0 0\ntag 1 1\ntag 33 1\ntag 65 1\ntag 97 1\nset 1 1 3\nstart 1 attributed 0 1 0 -\nring 8465 1\nend 1 1 0 1\nadd 191 1\nring 8465 2\nring 8496 1\nstart 2 attributed 0 1 0 -\nring 8465 3\nfinal\nend\n";

/// That report with one change each, and where it stops.
const CHANGED_JOURNALS: [(&[u8], u64); 7] = [
    // The session's line twice.
    (
        b"pfs-report 1\nphase 1\nsession 1\nsession 1\nconnect 1 0 0 0 0\ntag 1 1\ntag 33 1\ntag 65 1\ntag 97 1\nset 1 1 3\nstart 1 attributed 0 1 0 -\nring 8465 1\nend 1 1 0 1\nadd 191 1\nring 8465 2\nring 8496 1\nstart 2 attributed 0 1 0 -\nring 8465 3\nfinal\nend\n",
        4,
    ),
    // A start twice.
    (
        b"pfs-report 1\nphase 1\nsession 1\nconnect 1 0 0 0 0\ntag 1 1\ntag 33 1\ntag 65 1\ntag 97 1\nset 1 1 3\nstart 1 attributed 0 1 0 -\nstart 1 attributed 0 1 0 -\nring 8465 1\nend 1 1 0 1\nadd 191 1\nring 8465 2\nring 8496 1\nstart 2 attributed 0 1 0 -\nring 8465 3\nfinal\nend\n",
        11,
    ),
    // A start that isn't there.
    (
        b"pfs-report 1\nphase 1\nsession 1\nconnect 1 0 0 0 0\ntag 1 1\ntag 33 1\ntag 65 1\ntag 97 1\nset 1 1 3\nring 8465 1\nend 1 1 0 1\nadd 191 1\nring 8465 2\nring 8496 1\nstart 2 attributed 0 1 0 -\nring 8465 3\nfinal\nend\n",
        10,
    ),
    // A tag that stands behind the puts of an end.
    (
        b"pfs-report 1\nphase 1\nsession 1\nconnect 1 0 0 0 0\ntag 1 1\ntag 65 1\ntag 97 1\nset 1 1 3\nstart 1 attributed 0 1 0 -\nring 8465 1\nend 1 1 0 1\nadd 191 1\nring 8465 2\nring 8496 1\ntag 33 1\nstart 2 attributed 0 1 0 -\nring 8465 3\nfinal\nend\n",
        15,
    ),
    // A tag behind the set of its action.
    (
        b"pfs-report 1\nphase 1\nsession 1\nconnect 1 0 0 0 0\ntag 1 1\ntag 33 1\ntag 65 1\nset 1 1 3\ntag 97 1\nstart 1 attributed 0 1 0 -\nring 8465 1\nend 1 1 0 1\nadd 191 1\nring 8465 2\nring 8496 1\nstart 2 attributed 0 1 0 -\nring 8465 3\nfinal\nend\n",
        9,
    ),
    // A third put to a ring of the thread.
    (
        b"pfs-report 1\nphase 1\nsession 1\nconnect 1 0 0 0 0\ntag 1 1\ntag 33 1\ntag 65 1\ntag 97 1\nset 1 1 3\nstart 1 attributed 0 1 0 -\nring 8465 1\nend 1 1 0 1\nadd 191 1\nring 8465 2\nring 8496 1\nring 8496 1\nstart 2 attributed 0 1 0 -\nring 8465 3\nfinal\nend\n",
        16,
    ),
    // An addition to another row.
    (
        b"pfs-report 1\nphase 1\nsession 1\nconnect 1 0 0 0 0\ntag 1 1\ntag 33 1\ntag 65 1\ntag 97 1\nset 1 1 3\nstart 1 attributed 0 1 0 -\nring 8465 1\nend 1 1 0 1\nadd 192 1\nring 8465 2\nring 8496 1\nstart 2 attributed 0 1 0 -\nring 8465 3\nfinal\nend\n",
        13,
    ),
];

#[test]
fn a_journal_stops_at_its_first_misfit(rt: HostRuntime) {
    for (report, line) in &CHANGED_JOURNALS {
        assert_eq!(rt; stops_at(rt.alloc(), TRANSACTIONS, report), Some(*line));
    }
}

// The places behind the entries of the connect, of each line, and of the block's end.
#[test]
fn a_good_journal_is_cut_by_its_lines(rt: HostRuntime) -> Result<(), Fail> {
    let Ok(script) = Script::read(rt.alloc(), TRANSACTIONS) else {
        return Err(Fail::from("the script is read"));
    };
    let Ok(report) = read(rt.alloc(), TRANSACTIONS_REPORT) else {
        return Err(Fail::from("the report is read"));
    };
    let Ok(cuts) = cut_report(rt.alloc(), script.phases.as_slice(), report.parts()) else {
        return Err(Fail::from("the report is cut"));
    };
    let [phase] = cuts.as_slice() else {
        return Err(Fail::from("there is one phase"));
    };
    let [block] = phase.blocks.as_slice() else {
        return Err(Fail::from("it has one block"));
    };
    assert_eq!(rt; block.phase, 1);
    assert_eq!(rt; block.session, 1);
    assert_eq!(rt; block.lines.len(), 5);
    assert_eq!(rt; block.ends.as_slice(), [6, 8, 12, 14, 14].as_slice());
    Ok(())
}

/// SELECTs and a change, twice, and a last SELECT: answers of two rows, of one and of four.
const QUERIES: &[u8] =
    b"phase\nsession 1 u h\nrepeat 2\nsql SELECT NAME FROM setup_consumers WHERE NAME LIKE 'events\\_%\\_current' AND ENABLED = 'NO'\nsql UPDATE setup_consumers SET ENABLED = 'YES' WHERE NAME LIKE '%waits_current'\ndone\nsql SELECT ENABLED, NAME FROM setup_consumers WHERE NAME < 'events_t' ORDER BY ENABLED LIMIT 4\n";

/// Lines 1 to 12, up to the two rows of the first answer.
const QUERIES_FRONT: &[u8] =
    b"pfs-report 1\nphase 1\nsession 1\nconnect 1 0 0 0 0\ntag 1 1\ntag 33 1\ntag 65 1\ntag 97 1\nset 1 1 3\nquery\nsaw 0 0\nrows 2\n";

/// What follows, and where it stops.
const AFTER_ROWS: [(&[u8], u64); 6] = [
    (
        b"row 'events_stages_current'\nrow 'events_waits_current'\nact 2\nset 0 1 29400\nreply 1\nquery\nsaw 0 1\nrows 1\nrow 'events_stages_current'\nact 3\nreply 1\nquery\nsaw 0 1\nrows 4\nrow 'NO' 'events_stages_current'\nrow 'NO' 'events_stages_history'\nrow 'NO' 'events_stages_history_long'\nrow 'NO' 'events_statements_history_long'\nfinal\nend\n",
        0,
    ),
    // The change of the second round isn't there.
    (
        b"row 'events_stages_current'\nrow 'events_waits_current'\nact 2\nset 0 1 29400\nreply 1\nquery\nsaw 0 1\nrows 1\nrow 'events_stages_current'\nreply 1\nquery\nsaw 0 1\nrows 4\nrow 'NO' 'events_stages_current'\nrow 'NO' 'events_stages_history'\nrow 'NO' 'events_stages_history_long'\nrow 'NO' 'events_statements_history_long'\nfinal\nend\n",
        22,
    ),
    // An action twice.
    (
        b"row 'events_stages_current'\nrow 'events_waits_current'\nact 2\nact 2\nset 0 1 29400\nreply 1\nquery\nsaw 0 1\nrows 1\nrow 'events_stages_current'\nact 3\nreply 1\nquery\nsaw 0 1\nrows 4\nrow 'NO' 'events_stages_current'\nrow 'NO' 'events_stages_history'\nrow 'NO' 'events_stages_history_long'\nrow 'NO' 'events_statements_history_long'\nfinal\nend\n",
        16,
    ),
    // A reading without its query.
    (
        b"row 'events_stages_current'\nrow 'events_waits_current'\nact 2\nset 0 1 29400\nreply 1\nquery\nsaw 0 1\nrows 1\nrow 'events_stages_current'\nact 3\nreply 1\nsaw 0 1\nrows 4\nrow 'NO' 'events_stages_current'\nrow 'NO' 'events_stages_history'\nrow 'NO' 'events_stages_history_long'\nrow 'NO' 'events_statements_history_long'\nfinal\nend\n",
        24,
    ),
    // The last SELECT isn't there.
    (
        b"row 'events_stages_current'\nrow 'events_waits_current'\nact 2\nset 0 1 29400\nreply 1\nquery\nsaw 0 1\nrows 1\nrow 'events_stages_current'\nact 3\nreply 1\nfinal\nend\n",
        24,
    ),
    // A SELECT more.
    (
        b"row 'events_stages_current'\nrow 'events_waits_current'\nact 2\nset 0 1 29400\nreply 1\nquery\nsaw 0 1\nrows 1\nrow 'events_stages_current'\nact 3\nreply 1\nquery\nsaw 0 1\nrows 4\nrow 'NO' 'events_stages_current'\nrow 'NO' 'events_stages_history'\nrow 'NO' 'events_stages_history_long'\nrow 'NO' 'events_statements_history_long'\nquery\nrows 0\nfinal\nend\n",
        31,
    ),
];

#[test]
fn rows_of_answers_are_lines(rt: HostRuntime) -> Result<(), Fail> {
    for (behind, line) in &AFTER_ROWS {
        let mut report = Vec::from_slice(rt.alloc(), QUERIES_FRONT)?;
        report.extend_from_slice(behind)?;
        assert_eq!(rt; stops_at(rt.alloc(), QUERIES, &report), Some(*line));
    }
    Ok(())
}

/// Two sessions in two phases; the first has a wait in the second phase, and ends there.
const TWO_PHASES: &[u8] =
    b"phase\nsession 1 u h\nsession 2 v h\nphase\nsession 2\nsession 1\nstart wait/io/file/sql/binlog\nend\nquit\n";

/// Reports of it, and where each stops. Which changes its actions make isn't asked.
const CHANGED_BLOCKS: [(&[u8], u64); 9] = [
    (
        b"pfs-report 1\nphase 1\nsession 1\nconnect 1 0 0 0 0\nsession 2\nconnect 2 - 1 1 0\nfinal\nphase 2\nsession 2\nsession 1\nstart 1 attributed 0 1 0 -\nend 1 1 0 1\nadd 135 1\nact 3\nfinal\nend\n",
        0,
    ),
    // Another session.
    (
        b"pfs-report 1\nphase 1\nsession 1\nconnect 1 0 0 0 0\nsession 3\nconnect 2 - 1 1 0\nfinal\nphase 2\nsession 2\nsession 1\nstart 1 attributed 0 1 0 -\nend 1 1 0 1\nadd 135 1\nact 3\nfinal\nend\n",
        5,
    ),
    // A block isn't there.
    (
        b"pfs-report 1\nphase 1\nsession 1\nconnect 1 0 0 0 0\nfinal\nphase 2\nsession 2\nsession 1\nstart 1 attributed 0 1 0 -\nend 1 1 0 1\nadd 135 1\nact 3\nfinal\nend\n",
        5,
    ),
    // A block more.
    (
        b"pfs-report 1\nphase 1\nsession 1\nconnect 1 0 0 0 0\nsession 2\nconnect 2 - 1 1 0\nsession 3\nfinal\nphase 2\nsession 2\nsession 1\nstart 1 attributed 0 1 0 -\nend 1 1 0 1\nadd 135 1\nact 3\nfinal\nend\n",
        7,
    ),
    // Another phase.
    (
        b"pfs-report 1\nphase 1\nsession 1\nconnect 1 0 0 0 0\nsession 2\nconnect 2 - 1 1 0\nfinal\nphase 3\nsession 2\nsession 1\nstart 1 attributed 0 1 0 -\nend 1 1 0 1\nadd 135 1\nact 3\nfinal\nend\n",
        8,
    ),
    // A phase isn't there.
    (
        b"pfs-report 1\nphase 1\nsession 1\nconnect 1 0 0 0 0\nsession 2\nconnect 2 - 1 1 0\nfinal\ntable users\nrow 'u' 1 1\nlost a 1\nend\n",
        11,
    ),
    // A phase more.
    (
        b"pfs-report 1\nphase 1\nsession 1\nconnect 1 0 0 0 0\nsession 2\nconnect 2 - 1 1 0\nfinal\nphase 2\nsession 2\nsession 1\nstart 1 attributed 0 1 0 -\nend 1 1 0 1\nadd 135 1\nact 3\nfinal\nphase 3\nfinal\nend\n",
        16,
    ),
    // The end of the session isn't there: its last line is the line `final`.
    (
        b"pfs-report 1\nphase 1\nsession 1\nconnect 1 0 0 0 0\nsession 2\nconnect 2 - 1 1 0\nfinal\nphase 2\nsession 2\nsession 1\nstart 1 attributed 0 1 0 -\nend 1 1 0 1\nadd 135 1\nfinal\nend\n",
        14,
    ),
    // The first session has no slot, so that its event can't count for a thread.
    (
        b"pfs-report 1\nphase 1\nsession 1\nconnect 1 - 0 0 0\nsession 2\nconnect 2 - 1 1 0\nfinal\nphase 2\nsession 2\nsession 1\nstart 1 attributed 0 1 0 -\nend 1 1 0 1\nadd 135 1\nact 3\nfinal\nend\n",
        11,
    ),
];

#[test]
fn blocks_and_phases_are_the_scripts(rt: HostRuntime) {
    for (report, line) in &CHANGED_BLOCKS {
        assert_eq!(rt; stops_at(rt.alloc(), TWO_PHASES, report), Some(*line));
    }
}

const ONE_WAIT: &[u8] = b"phase\nsession 1 u h\nstart wait/io/file/sql/binlog\nend\n";

/// Lines 1 to 6, up to the end of the wait.
const ONE_WAIT_FRONT: &[u8] =
    b"pfs-report 1\nphase 1\nsession 1\nconnect 1 0 0 0 0\nstart 1 attributed 0 1 0 -\nend 1 1 0 1\n";

/// What is held is added at the block's end. What follows, and where it stops.
const SETTLED: [(&[u8], u64); 5] = [
    (b"held 135 5 6\nsettle\nadd 135 1\nfinal\nend\n", 0),
    (b"held 135 5 6\nfinal\nend\n", 8),
    (b"held 135 5 6\nadd 135 1\nfinal\nend\n", 8),
    // It is held once more.
    (b"held 135 5 6\nsettle\nheld 135 7 8\nfinal\nend\n", 9),
    (
        b"held 135 5 6\nsettle\nadd 135 1\nadd 135 2\nfinal\nend\n",
        10,
    ),
];

#[test]
fn what_is_held_is_settled(rt: HostRuntime) -> Result<(), Fail> {
    for (behind, line) in &SETTLED {
        let mut report = Vec::from_slice(rt.alloc(), ONE_WAIT_FRONT)?;
        report.extend_from_slice(behind)?;
        assert_eq!(rt; stops_at(rt.alloc(), ONE_WAIT, &report), Some(*line));
    }
    Ok(())
}
