//! The counters of what was lost, under the `final` lines of two reports of `judged`: the twelfth rule. The rows are by
//! hand.

use crate::answers::{Answer, Edit, edited, replay_report};
use crate::judged::{REFUSALS, REFUSALS_REPORT, TRANSACTIONS, TRANSACTIONS_REPORT};
use pfs_check_finals::{EndRule, judge_lost};
use std::alloc::Global;

/// What stands in place of the last `final` and `end`, and what is told then.
struct End {
    lines: &'static [u8],
    rule: EndRule,
}

/// Nothing is lost there; the last `final` stands on line 18.
const TRANSACTIONS_ENDS: [End; 2] = [
    End {
        lines: b"final\nend\n",
        rule: EndRule::Kept,
    },
    End {
        lines: b"final\nlost Performance_schema_digest_lost 1\nend\n",
        rule: EndRule::Wrong(19),
    },
];

/// Two users, three lockers, one class of files and five of stages are lost; the last `final` stands on line 51.
const REFUSALS_ENDS: [End; 6] = [
    End {
        lines: b"final\nlost Performance_schema_users_lost 2\nlost Performance_schema_locker_lost 3\nlost Performance_schema_file_classes_lost 1\nlost Performance_schema_stage_classes_lost 5\nend\n",
        rule: EndRule::Kept,
    },
    // None is told.
    End {
        lines: b"final\nend\n",
        rule: EndRule::Wrong(52),
    },
    // Another number.
    End {
        lines: b"final\nlost Performance_schema_users_lost 2\nlost Performance_schema_locker_lost 4\nlost Performance_schema_file_classes_lost 1\nlost Performance_schema_stage_classes_lost 5\nend\n",
        rule: EndRule::Wrong(53),
    },
    // The second is left out.
    End {
        lines: b"final\nlost Performance_schema_users_lost 2\nlost Performance_schema_file_classes_lost 1\nlost Performance_schema_stage_classes_lost 5\nend\n",
        rule: EndRule::Wrong(53),
    },
    // The last is left out: the line behind is `end`.
    End {
        lines: b"final\nlost Performance_schema_users_lost 2\nlost Performance_schema_locker_lost 3\nlost Performance_schema_file_classes_lost 1\nend\n",
        rule: EndRule::Wrong(55),
    },
    // The second stands twice.
    End {
        lines: b"final\nlost Performance_schema_users_lost 2\nlost Performance_schema_locker_lost 3\nlost Performance_schema_locker_lost 3\nlost Performance_schema_file_classes_lost 1\nlost Performance_schema_stage_classes_lost 5\nend\n",
        rule: EndRule::Wrong(54),
    },
];

/// The answer of the twelfth rule; None where a text isn't read, or memory runs out.
fn lost_rule(alloc: Global, script: &[u8], report: &[u8]) -> Option<EndRule> {
    let Ok(report) = replay_report(alloc, script, report) else {
        return None;
    };
    let cuts = report.cuts.as_slice();
    let parts = report.report.parts();
    judge_lost(alloc, &report.script.setting, cuts, parts, &report.orders).ok()
}

fn with_end(alloc: Global, report: &[u8], end: &End) -> Option<Vec<u8>> {
    let edit = Edit {
        old: b"final\nend\n",
        new: end.lines,
        answer: Answer::Good,
    };
    edited(alloc, report, &edit)
}

fn ends_with(alloc: Global, script: &[u8], report: &[u8], end: &End) -> Option<EndRule> {
    let report = with_end(alloc, report, end)?;
    lost_rule(alloc, script, report.as_slice())
}

#[test]
fn nothing_is_lost(rt: HostRuntime) {
    for end in &TRANSACTIONS_ENDS {
        assert_eq!(rt;
            ends_with(rt.alloc(), TRANSACTIONS, TRANSACTIONS_REPORT, end),
            Some(end.rule)
        );
    }
}

#[test]
fn counters_of_what_was_lost(rt: HostRuntime) {
    for end in &REFUSALS_ENDS {
        assert_eq!(rt;
            ends_with(rt.alloc(), REFUSALS, REFUSALS_REPORT, end),
            Some(end.rule)
        );
    }
}
