//! Reports of sessions at once with one change each, and the first rule that each breaks, with its line. They were made
//! and judged by a program that has nothing of this one. Here the tables behind the last phase are left out, and of
//! the third script all events with their entries; the line is the one that was judged, less the lines left out before
//! it. That program knew a sixteenth consumer, so the third report's `UPDATE` is told here as fifteen have it. The
//! reports without a change weren't judged, and break none of these rules here.

use crate::answers::{Answer, Edit, edited_answer, first_fault};

/// Two transactions, of which the second stays open.
pub(crate) const TRANSACTIONS: &[u8] =
    b"consumer events_waits_current YES\nconsumer events_waits_history YES\nconsumer events_waits_history_long YES\nconsumer events_stages_current YES\nconsumer events_stages_history YES\nconsumer events_stages_history_long YES\nconsumer events_statements_history_long YES\ninstrument wait/synch/% YES YES\nphase\nsession 1 v h\nstart transaction rw\nend\nstart transaction rw\n";

pub(crate) const TRANSACTIONS_REPORT: &[u8] =
    b"pfs-report 1\nphase 1\nsession 1\nconnect 1 0 0 0 0\ntag 1 1\ntag 33 1\ntag 65 1\ntag 97 1\nset 1 1 3\nstart 1 attributed 0 1 0 -\nring 8465 1\nend 1 1 0 1\nadd 191 1\nring 8465 2\nring 8496 1\nstart 2 attributed 0 1 0 -\nring 8465 3\nfinal\nend\n";

/// That report with one change each.
const TRANSACTIONS_EDITS: [Edit; 16] = [
    Edit {
        old: b"tag 1 1\n",
        new: b"tag 1 0\n",
        answer: Answer::Chain(5),
    },
    Edit {
        old: b"connect 1 0 0 0 0\n",
        new: b"connect 1 0 0 0 0\ntag 1 1\n",
        answer: Answer::Chain(6),
    },
    Edit {
        old: b"tag 1 1\n",
        new: b"tag 1 1\ntag 33 1\n",
        answer: Answer::Chain(7),
    },
    Edit {
        old: b"tag 97 1\n",
        new: b"tag 97 3\n",
        answer: Answer::Chain(8),
    },
    Edit {
        old: b"tag 65 1\n",
        new: b"tag 65 1\ntag 97 1\n",
        answer: Answer::Chain(9),
    },
    Edit {
        old: b"add 191 1\n",
        new: b"add 191 3\n",
        answer: Answer::Chain(13),
    },
    Edit {
        old: b"add 191 1\n",
        new: b"add 191 5\n",
        answer: Answer::Chain(13),
    },
    Edit {
        old: b"ring 8465 2\n",
        new: b"ring 8464 2\n",
        answer: Answer::Chain(14),
    },
    Edit {
        old: b"ring 8465 2\n",
        new: b"ring 8465 1\n",
        answer: Answer::Chain(14),
    },
    Edit {
        old: b"ring 8496 1\n",
        new: b"ring 8496 5\n",
        answer: Answer::Chain(15),
    },
    Edit {
        old: b"end 1 1 0 1\n",
        new: b"end 1 1 2 1\n",
        answer: Answer::Seen(12),
    },
    Edit {
        old: b"end 1 1 0 1\n",
        new: b"end 1 1 4 1\n",
        answer: Answer::Seen(12),
    },
    Edit {
        old: b"connect 1 0 0 0 0\n",
        new: b"connect 1 0 0 4 0\n",
        answer: Answer::Numbers(4),
    },
    Edit {
        old: b"start 1 attributed 0 1 0 -\n",
        new: b"start - attributed 0 1 0 -\n",
        answer: Answer::Numbers(10),
    },
    Edit {
        old: b"end 1 1 0 1\n",
        new: b"end 1 3 0 1\n",
        answer: Answer::Numbers(12),
    },
    Edit {
        old: b"start 2 attributed 0 1 0 -\n",
        new: b"start 2 lost-nested 0 1 0 -\n",
        answer: Answer::Verdict(16),
    },
];

/// A change of no row and events of two sessions, most of them of classes or tables that lack their memory or are off.
pub(crate) const REFUSALS: &[u8] =
    b"limit users 0\nlimit statement_stack 2\nlimit file_classes 3\nlimit stage_classes 1\nclass wait/io/file/own/x YES YES\nclass stage/own/y YES NO\nclass statement/own/z YES YES\nconsumer events_waits_current YES\nconsumer events_waits_history YES\nconsumer events_waits_history_long YES\nconsumer events_stages_current YES\nconsumer events_stages_history YES\nconsumer events_statements_history_long YES\nconsumer events_transactions_history_long YES\nphase\nphase\nsession 1 u g\nsql DELETE FROM setup_actors WHERE USER='u' AND ENABLED = 'NO'\nstart wait/io/file/sql/binlog\nstart wait/synch/mutex/sql/LOCK_open\nsession 2 u h\nspend 9223372036854775808\nstart transaction rw\nstart wait/io/file/own/x\nend\nspend 1\nstart wait/lock/table/sql/handler db.t\nstart wait/io/file/innodb/innodb_data_file\nstart wait/synch/mutex/sql/LOCK_open\nstart wait/io/table/sql/handler db.t\nspend 120\nstart wait/io/file/sql/binlog\nsql SELECT * FROM setup_consumers LIMIT 3\nstart wait/io/file/own/x\nstart wait/io/socket/sql/client_connection\nend\nstart wait/io/table/sql/handler db.u\nend\nstart wait/io/file/sql/binlog\nend\nstart wait/io/file/sql/binlog\nspend 18446744073709551615\nspend 0\nspend 120\nspend 9223372036854775808\n";

pub(crate) const REFUSALS_REPORT: &[u8] =
    b"pfs-report 1\nphase 1\nfinal\nlost Performance_schema_file_classes_lost 1\nlost Performance_schema_stage_classes_lost 5\nphase 2\nsession 1\nconnect 1 0 0 - 0\ntag 1 1\ntag 33 1\ntag 97 1\nset 1 1 3\nact 3\nreply 0\nstart 1 attributed 0 1 0 -\nring 8450 1\nstart - off-class 0 1 0 -\nsession 2\nconnect 2 1 1 - 1\ntag 2 1\ntag 34 1\ntag 98 1\nset 2 1 3\nstart 1 attributed 0 1 0 -\nring 8521 1\nstart - lost-class - - - -\nend - - - -\nstart 2 attributed 0 1 0 0\nring 8506 1\nstart 3 attributed 0 1 0 -\nring 8507 1\nstart - off-class 0 1 0 -\nstart 4 attributed 0 1 0 0\nring 8508 1\nstart 5 attributed 0 1 0 -\nring 8509 1\nquery\nsaw 0 0\nrows 3\nrow 'events_stages_current' 'YES'\nrow 'events_stages_history' 'YES'\nrow 'events_stages_history_long' 'NO'\nstart - lost-class - - - -\nstart - off-class 0 1 0 -\nend - - - -\nstart - lost-locker 0 1 0 0\nend - - - -\nstart - lost-locker 0 1 0 -\nend - - - -\nstart - lost-locker 0 1 0 -\nfinal\nend\n";

/// That report with one change each.
const REFUSALS_EDITS: [Edit; 13] = [
    Edit {
        old: b"connect 1 0 0 - 0\n",
        new: b"connect 0 0 0 - 0\n",
        answer: Answer::Actions(8),
    },
    Edit {
        old: b"act 3\n",
        new: b"act 4\n",
        answer: Answer::Actions(13),
    },
    Edit {
        old: b"act 3\n",
        new: b"act 5\n",
        answer: Answer::Actions(13),
    },
    Edit {
        old: b"start - off-class 0 1 0 -\n",
        new: b"start - off-class 0 3 0 -\n",
        answer: Answer::Seen(17),
    },
    Edit {
        old: b"start 2 attributed 0 1 0 0\n",
        new: b"start 2 attributed 0 0 0 0\n",
        answer: Answer::Seen(28),
    },
    Edit {
        old: b"start 3 attributed 0 1 0 -\n",
        new: b"start 3 attributed 0 5 0 -\n",
        answer: Answer::Seen(30),
    },
    Edit {
        old: b"start 4 attributed 0 1 0 0\n",
        new: b"start 4 attributed 4 1 0 0\n",
        answer: Answer::Seen(33),
    },
    Edit {
        old: b"set 1 1 3\nact 3\n",
        new: b"act 3\nset 1 1 3\n",
        answer: Answer::Setup(12),
    },
    Edit {
        old: b"set 2 1 3\n",
        new: b"set 2 0 3\n",
        answer: Answer::Setup(23),
    },
    Edit {
        old: b"start 1 attributed 0 1 0 -\n",
        new: b"start - attributed 0 1 0 -\n",
        answer: Answer::Numbers(15),
    },
    Edit {
        old: b"start 2 attributed 0 1 0 0\n",
        new: b"start 0 attributed 0 1 0 0\n",
        answer: Answer::Numbers(28),
    },
    Edit {
        old: b"start 4 attributed 0 1 0 0\n",
        new: b"start 8 attributed 0 1 0 0\n",
        answer: Answer::Numbers(33),
    },
    Edit {
        old: b"start 5 attributed 0 1 0 -\n",
        new: b"start 9 attributed 0 1 0 -\n",
        answer: Answer::Numbers(35),
    },
];

/// Actions of five sessions that have no thread, in two phases.
const ACTIONS: &[u8] =
    b"limit thread_instances 0\nlimit digests 0\nlimit statement_stack 1\nphase\nsession 6 v g\nquit\nsession 5 v h\nsql TRUNCATE TABLE events_waits_summary_by_account_by_event_name\nsql DELETE FROM setup_objects WHERE OBJECT_SCHEMA='db'\nquit\nsession 2 v g\nsession 1 u h\nphase\nsession 2\nsql UPDATE setup_consumers SET ENABLED='YES' WHERE NAME LIKE 'events_%'\nquit\nsession 3 w g\nsql TRUNCATE TABLE events_stages_summary_global_by_event_name\nsql UPDATE setup_consumers SET ENABLED='YES' WHERE NAME LIKE '%current'\nsession 1\n";

const ACTIONS_REPORT: &[u8] =
    b"pfs-report 1\nphase 1\nsession 6\nconnect 2 - - - -\nact 4\nsession 5\nconnect 5 - - - -\nact 6\nreply 0\nact 7\nreply 0\nact 8\nsession 2\nconnect 3 - - - -\nsession 1\nconnect 1 - - - -\nfinal\nphase 2\nsession 2\nact 9\nset 0 1 32767\nreply 12\nact 10\nsession 3\nconnect 11 - - - -\nact 12\ntake 8333 1\ntake 8334 1\ntake 8335 1\ntake 8336 1\ntake 8337 1\nreply 0\nact 13\nreply 4\nsession 1\nfinal\nend\n";

/// That report with one change each.
const ACTIONS_EDITS: [Edit; 8] = [
    Edit {
        old: b"connect 2 - - - -\n",
        new: b"connect 4 - - - -\n",
        answer: Answer::Actions(5),
    },
    Edit {
        old: b"connect 1 - - - -\n",
        new: b"connect 0 - - - -\n",
        answer: Answer::Actions(16),
    },
    Edit {
        old: b"connect 1 - - - -\n",
        new: b"connect 2 - - - -\n",
        answer: Answer::Actions(16),
    },
    Edit {
        old: b"act 9\n",
        new: b"act 10\n",
        answer: Answer::Actions(23),
    },
    Edit {
        old: b"act 10\n",
        new: b"act 6\n",
        answer: Answer::Actions(23),
    },
    Edit {
        old: b"act 10\n",
        new: b"act 11\n",
        answer: Answer::Actions(25),
    },
    Edit {
        old: b"connect 11 - - - -\n",
        new: b"connect 0 - - - -\n",
        answer: Answer::Actions(25),
    },
    Edit {
        old: b"act 13\n",
        new: b"act 15\n",
        answer: Answer::Actions(33),
    },
];

#[test]
fn unchanged_reports_are_good(rt: HostRuntime) {
    let alloc = rt.alloc();
    assert_eq!(rt;
        first_fault(alloc, TRANSACTIONS, TRANSACTIONS_REPORT),
        Some(Answer::Good)
    );
    assert_eq!(rt;
        first_fault(alloc, REFUSALS, REFUSALS_REPORT),
        Some(Answer::Good)
    );
    assert_eq!(rt;
        first_fault(alloc, ACTIONS, ACTIONS_REPORT),
        Some(Answer::Good)
    );
}

#[test]
fn versions_and_what_was_seen(rt: HostRuntime) {
    for edit in &TRANSACTIONS_EDITS {
        assert_eq!(rt;
            edited_answer(rt.alloc(), TRANSACTIONS, TRANSACTIONS_REPORT, edit),
            Some(edit.answer)
        );
    }
}

#[test]
fn numbers_of_actions_and_switch_words(rt: HostRuntime) {
    for edit in &REFUSALS_EDITS {
        assert_eq!(rt;
            edited_answer(rt.alloc(), REFUSALS, REFUSALS_REPORT, edit),
            Some(edit.answer)
        );
    }
}

#[test]
fn numbers_of_actions(rt: HostRuntime) {
    for edit in &ACTIONS_EDITS {
        assert_eq!(rt;
            edited_answer(rt.alloc(), ACTIONS, ACTIONS_REPORT, edit),
            Some(edit.answer)
        );
    }
}
