//! The fifth rule of a report's judge: what lines name was there, and isn't below what their sessions must have seen.

use crate::answers::{Answer, Edit, edited_answer, first_fault};

/// A SELECT and a transaction of one session, one of another, and a second of the first in the next phase.
const SCRIPT: &[u8] =
    b"consumer events_stages_current YES\nphase\nsession 1 v h\nsql SELECT NAME FROM setup_consumers WHERE NAME LIKE 'events\\_%\\_current'\nstart transaction rw\nend\nsession 2 w h\nstart transaction rw\nend\nphase\nsession 1\nstart transaction rw\nend\n";

const REPORT: &[u8] =
    b"pfs-report 1\nphase 1\nsession 1\nconnect 1 0 0 0 0\ntag 1 1\ntag 33 1\ntag 65 1\ntag 97 1\nset 1 1 3\nquery\nsaw 0 0\nrows 4\nrow 'events_stages_current'\nrow 'events_statements_current'\nrow 'events_transactions_current'\nrow 'events_waits_current'\nstart 1 attributed 0 1 0 -\nring 8465 1\nend 1 1 0 1\nadd 191 1\nring 8465 2\nring 8496 1\nsession 2\nconnect 2 1 1 1 0\ntag 2 1\ntag 34 1\ntag 66 1\ntag 97 2\nset 2 1 3\nstart 1 attributed 0 1 0 -\nring 8521 1\nend 1 1 0 1\nadd 255 1\nring 8521 2\nring 8552 1\nfinal\ntable users\nrow 'v' 1 1\nrow 'w' 1 1\nphase 2\nsession 1\nstart 2 attributed 0 1 0 -\nring 8465 3\nend 2 2 0 1\nadd 191 2\nring 8465 4\nring 8497 1\nfinal\nend\n";

/// That report with one change each, and what is answered.
const EDITS: [Edit; 4] = [
    // There is no such word.
    Edit {
        old: b"saw 0 0\n",
        new: b"saw 160 0\n",
        answer: Answer::Seen(11),
    },
    // The session has set that word itself before.
    Edit {
        old: b"start 1 attributed 0 1 0 -\n",
        new: b"start 1 attributed 0 0 0 -\n",
        answer: Answer::Seen(17),
    },
    // Two changes of a place in the other order.
    Edit {
        old: b"ring 8465 1\nend 1 1 0 1\nadd 191 1\nring 8465 2\n",
        new: b"ring 8465 2\nend 1 1 0 1\nadd 191 1\nring 8465 1\n",
        answer: Answer::Seen(21),
    },
    // A word at a version that it never got.
    Edit {
        old: b"end 2 2 0 1\n",
        new: b"end 2 2 0 2\n",
        answer: Answer::Seen(44),
    },
];

#[test]
fn what_was_seen_is_good(rt: HostRuntime) {
    assert_eq!(rt; first_fault(rt.alloc(), SCRIPT, REPORT), Some(Answer::Good));
}

#[test]
fn what_was_not_seen_is_told_by_its_line(rt: HostRuntime) {
    for edit in &EDITS {
        assert_eq!(rt;
            edited_answer(rt.alloc(), SCRIPT, REPORT, edit),
            Some(edit.answer)
        );
    }
}
