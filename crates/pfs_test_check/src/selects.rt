//! SELECTs of a script, judged by what is known of rows, words and the administration.

use pfs_check_answers::{Answered, NoMemory, Shows, Versions, judge_held, judge_stored};
use pfs_event::Entry;
use pfs_exec::{Request, Select, request_of};
use pfs_journal::{Report, read};
use pfs_script::Script;
use pfs_text::Rowset;
use std::alloc::Global;
use std::test::Fail;

const SCRIPT: &[u8] = b"phase\nsession 1 u h\nspend 1\n";

const FIRST: &[u8] = b"pfs-report 1\nphase 1\nsession 1\n";

const LAST: &[u8] = b"final\nend\n";

/// Rows that hold nothing, and words that have the flag of `global_instrumentation` alone.
#[derive(Clone, Copy)]
struct Words;

impl Versions for Words {
    ghost knows = { λ words all content flags. ⊥ };

    fn content(&self, _row: u64, _version: u64) -> [u64; 16] {
        [0; 16]
    }

    fn flags(&self, _word: u64, _version: u64) -> u16 {
        4096
    }
}

/// Nothing is held.
#[derive(Clone, Copy)]
struct Nothing;

impl Shows for Nothing {
    ghost knows = { λ nothing before. ⊥ };

    fn answer(&self, alloc: Global, _number: u64, _select: &Select) -> Result<Rowset, NoMemory> {
        Ok(Rowset::new(Vec::new(alloc)))
    }
}

const CONSUMER: &[u8] =
    b"SELECT ENABLED FROM performance_schema.setup_consumers WHERE NAME = 'global_instrumentation'";

const CONSUMERS: &[u8] =
    b"SELECT ENABLED FROM performance_schema.setup_consumers WHERE NAME LIKE 'events_waits%'";

const ACTORS: &[u8] = b"SELECT * FROM performance_schema.setup_actors";

/// A query, its part of a journal, and the place that is told; None where it is answered rightly.
const SELECTS: [(&[u8], &[u8], Option<u64>); 13] = [
    (CONSUMER, b"query\nsaw 0 3\nrows 1\nrow 'YES'\n", None),
    // The word isn't read.
    (CONSUMER, b"query\nrows 1\nrow 'YES'\n", Some(1)),
    // Another one is.
    (CONSUMER, b"query\nsaw 1 3\nrows 1\nrow 'YES'\n", Some(1)),
    // A row is read for it.
    (CONSUMER, b"query\nvacant 0\nrows 1\nrow 'YES'\n", Some(1)),
    // Another word is read besides.
    (
        CONSUMER,
        b"query\nsaw 0 3\nsaw 1 3\nrows 1\nrow 'YES'\n",
        Some(2),
    ),
    (CONSUMER, b"query\nsaw 0 3\nrows 0\n", Some(2)),
    // A row too many, which is said.
    (
        CONSUMER,
        b"query\nsaw 0 3\nrows 2\nrow 'YES'\nrow 'YES'\n",
        Some(2),
    ),
    (CONSUMER, b"query\nsaw 0 3\nrows 1\nrow 'NO'\n", Some(3)),
    (
        CONSUMERS,
        b"query\nsaw 0 3\nrows 3\nrow 'NO'\nrow 'NO'\nrow 'YES'\n",
        Some(5),
    ),
    (
        CONSUMERS,
        b"query\nsaw 0 3\nrows 3\nrow 'NO'\nrow 'NO'\nrow 'NO'\n",
        None,
    ),
    (ACTORS, b"act 2\nrows 0\n", None),
    // A word is set for it.
    (ACTORS, b"act 2\nset 0 1 0\nrows 0\n", Some(2)),
    (ACTORS, b"act 2\nrows 1\nrow 'u'\n", Some(1)),
];

/// The entries of the only journal, and its only answer.
fn told<S: Shows, V: Versions>(
    alloc: Global,
    shows: &S,
    versions: &V,
    query: &[u8],
    report: &Report,
) -> Option<Answered> {
    let Ok(script) = Script::read(alloc, SCRIPT) else {
        return None;
    };
    let Ok(request) = request_of(alloc, query) else {
        return None;
    };
    let phase = report.parts().phases.as_slice().first()?;
    let block = phase.parts().blocks.as_slice().first()?;
    let answer = block.answers.as_slice().first()?;
    let mut part: Vec<Entry> = Vec::new(alloc);
    for at in 0..block.entries.count() {
        if part.push(block.entries.entry(at)).is_err() {
            return None;
        }
    }
    let judged = match request {
        Request::Query(select) => judge_stored(
            alloc,
            &script.setting,
            versions,
            &select,
            part.as_slice(),
            answer,
        ),
        Request::Show(select) => {
            judge_held(
                alloc,
                &script.setting,
                shows,
                &select,
                part.as_slice(),
                answer,
            )
        }
        _ => return None,
    };
    judged.ok()
}

#[test]
fn a_wrong_answer_is_told_by_its_place(rt: HostRuntime) -> Result<(), Fail> {
    for (query, lines, place) in &SELECTS {
        let mut text = Vec::from_slice(rt.alloc(), FIRST)?;
        text.extend_from_slice(lines)?;
        text.extend_from_slice(LAST)?;
        let report = read(rt.alloc(), text.as_slice()).ok();
        let answered = match &report {
            Some(report) => told(rt.alloc(), &Nothing, &Words, query, report),
            None => None,
        };
        let due = match place {
            Some(place) => Answered::Wrong(*place),
            None => Answered::Kept,
        };
        assert_eq!(rt; answered, Some(due));
    }
    Ok(())
}
