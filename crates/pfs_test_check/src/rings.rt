//! The ninth rule of a report's judge: where events are brought, the tickets of long histories, and causes.

use pfs_check_cut::cut_report;
use pfs_check_rings::{RingRule, judge_rings};
use pfs_journal::read;
use pfs_script::Script;
use std::alloc::Global;
use std::test::Fail;

/// A transaction of each of two sessions, and a second of the first in the next phase, kept in the long history.
const SCRIPT: &[u8] =
    b"consumer events_transactions_history_long YES\nphase\nsession 1 v h\nstart transaction rw\nend\nsession 2 w h\nstart transaction rw\nend\nphase\nsession 1\nstart transaction rw\nend\n";

/// Lines 1 to 10, up to the first start.
const FIRST: &[u8] =
    b"pfs-report 1\nphase 1\nsession 1\nconnect 1 0 0 0 0\ntag 1 1\ntag 33 1\ntag 65 1\ntag 97 1\nset 1 1 3\nstart 1 attributed 0 1 0 -\n";

/// Lines 17 to 29, from the second journal to its history.
const SECOND: &[u8] =
    b"session 2\nconnect 2 1 1 1 0\ntag 2 1\ntag 34 1\ntag 66 1\ntag 97 2\nset 2 1 3\nstart 1 attributed 0 1 0 -\nring 8521 1\nend 1 1 0 1\nadd 255 1\nring 8521 2\nring 8552 1\n";

const AFTER: &[u8] =
    b"final\nphase 2\nsession 1\nstart 2 attributed 0 1 0 -\nring 8465 3\nend 2 2 0 1\nadd 191 2\nring 8465 4\nring 8497 1\nlong 13244 1 2\nfinal\nend\n";

/// What stands behind the first start, from line 11 on, and behind the second history; and the line that is told, 0 where
/// the rule is kept.
const PUTS: [(&[u8], &[u8], u64); 13] = [
    (
        b"ring 8465 1\nend 1 1 0 1\nadd 191 1\nring 8465 2\nring 8496 1\nlong 13242 1 0\n",
        b"long 13243 1 1\n",
        0,
    ),
    // The two sessions drew them in the other order.
    (
        b"ring 8465 1\nend 1 1 0 1\nadd 191 1\nring 8465 2\nring 8496 1\nlong 13243 1 1\n",
        b"long 13242 1 0\n",
        0,
    ),
    // A ticket twice.
    (
        b"ring 8465 1\nend 1 1 0 1\nadd 191 1\nring 8465 2\nring 8496 1\nlong 13242 1 0\n",
        b"long 13242 2 0\n",
        30,
    ),
    // Three were drawn in all, and the third in the next phase.
    (
        b"ring 8465 1\nend 1 1 0 1\nadd 191 1\nring 8465 2\nring 8496 1\nlong 13242 1 0\n",
        b"long 13244 1 2\n",
        30,
    ),
    // A ticket at another's place.
    (
        b"ring 8465 1\nend 1 1 0 1\nadd 191 1\nring 8465 2\nring 8496 1\nlong 13243 1 0\n",
        b"long 13242 1 1\n",
        16,
    ),
    // No current place at the start: the end stands there.
    (
        b"end 1 1 0 1\nadd 191 1\nring 8465 2\nring 8496 1\nlong 13242 1 0\n",
        b"long 13243 1 1\n",
        11,
    ),
    // The history's second place for its first.
    (
        b"ring 8465 1\nend 1 1 0 1\nadd 191 1\nring 8465 2\nring 8497 1\nlong 13242 1 0\n",
        b"long 13243 1 1\n",
        15,
    ),
    // The current place of another slot.
    (
        b"ring 8465 1\nend 1 1 0 1\nadd 191 1\nring 8521 2\nring 8496 1\nlong 13242 1 0\n",
        b"long 13243 1 1\n",
        14,
    ),
    // No put to the long history: the line behind the journal's last.
    (
        b"ring 8465 1\nend 1 1 0 1\nadd 191 1\nring 8465 2\nring 8496 1\nlong 13242 1 0\n",
        b"",
        30,
    ),
    // A place that was busy, and never in anybody's hand.
    (
        b"ring 8465 1\nend 1 1 0 1\nadd 191 1\nring 8465 2\nbusy 8496 0 0\nlong 13242 1 0\n",
        b"long 13243 1 1\n",
        15,
    ),
    // A greater ticket that nobody put.
    (
        b"ring 8465 1\nend 1 1 0 1\nadd 191 1\nring 8465 2\nring 8496 1\nlate 13242 0 1000\n",
        b"long 13243 1 1\n",
        16,
    ),
    // A word in the hand of another, who never put it back.
    (
        b"ring 8465 1\nend 1 1 0 1\nadd 191 1\nring 8465 2\nring 8496 1\nbusy 13242 1 1\n",
        b"long 13243 1 1\n",
        16,
    ),
    // The other did, so the cause is shown; but the place has no two tickets.
    (
        b"ring 8465 1\nend 1 1 0 1\nadd 191 1\nring 8465 2\nring 8496 1\nbusy 13242 1 1\n",
        b"long 13242 1 0\n",
        30,
    ),
];

/// The line that is told, 0 where the rule is kept; None where a text isn't read or cut.
fn wrong_ring(alloc: Global, report: &[u8]) -> Option<u64> {
    let Ok(script) = Script::read(alloc, SCRIPT) else {
        return None;
    };
    let Ok(report) = read(alloc, report) else {
        return None;
    };
    let Ok(cuts) = cut_report(alloc, script.phases.as_slice(), report.parts()) else {
        return None;
    };
    match judge_rings(alloc, &script.setting, cuts.as_slice(), report.parts()) {
        Ok(RingRule::Kept) => Some(0),
        Ok(RingRule::Wrong(line)) => Some(line),
        Err(_) => None,
    }
}

#[test]
fn a_wrong_put_is_told_by_its_line(rt: HostRuntime) -> Result<(), Fail> {
    for (first, second, line) in &PUTS {
        let mut report = Vec::from_slice(rt.alloc(), FIRST)?;
        report.extend_from_slice(first)?;
        report.extend_from_slice(SECOND)?;
        report.extend_from_slice(second)?;
        report.extend_from_slice(AFTER)?;
        assert_eq!(rt; wrong_ring(rt.alloc(), report.as_slice()), Some(*line));
    }
    Ok(())
}
