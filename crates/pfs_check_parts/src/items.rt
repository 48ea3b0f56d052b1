//! What a line asks for and allows, written down in a list that is used again.

ghost use Rattle.std.specs.Prelude.{◌≡◌, if◌then◌else◌, reverse, true, map, OnOk, ◌++◌, ◌∷◌, []};
ghost use Rattle.pfs_model.specs.Shapes.{added, changes, counted_slot, counting, digest_of, ending, ending_both, ending_first, ending_stage, is_stage, many, maybe, one, puts, settling, shape, starting};
ghost use Rattle.pfs_model.specs.declared.shapes.Ask.TheVariants as asks;
ghost use Rattle.pfs_check_trail.specs.Trails.{shaping};

use crate::NoMemory;
use pfs_check_trail::Trail;
use pfs_event::{EventKind, Verdict};
use pfs_model::{Ask, Item, Line, Often, Opened, Subject};
use std::collections::BTreeSet;

fn put_one(items: &mut Vec<Item>, ask: Ask) -> Result<(), NoMemory>
    ensures { OnOk result (items.new.items ≡ items.old.items ++ one ask ∷ []) }
{
    items.push(Item {
        often: Often::One,
        ask,
    })?;
    Ok(())
}

fn put_maybe(items: &mut Vec<Item>, ask: Ask) -> Result<(), NoMemory>
    ensures { OnOk result (items.new.items ≡ items.old.items ++ maybe ask ∷ []) }
{
    items.push(Item {
        often: Often::Maybe,
        ask,
    })?;
    Ok(())
}

fn put_many(items: &mut Vec<Item>, ask: Ask) -> Result<(), NoMemory>
    ensures { OnOk result (items.new.items ≡ items.old.items ++ many ask ∷ []) }
{
    items.push(Item {
        often: Often::Many,
        ask,
    })?;
    Ok(())
}

fn put_starting(items: &mut Vec<Item>, slot: Option<u64>, subject: &Subject) -> Result<(), NoMemory>
    ensures { OnOk result (items.new.items ≡ items.old.items ++ starting slot subject.now) }
{
    put_one(
        items,
        Ask::Start {
            slot: slot.is_some(),
            lost: subject.class.is_none(),
            table: subject.table.is_some(),
        },
    )?;
    put_maybe(items, Ask::Put)
}

fn put_puts(items: &mut Vec<Item>) -> Result<(), NoMemory>
    ensures { OnOk result (items.new.items ≡ items.old.items ++ puts) }
{
    put_maybe(items, Ask::Put)?;
    put_maybe(items, Ask::Put)?;
    put_maybe(items, Ask::LongPut)
}

fn put_changes(items: &mut Vec<Item>) -> Result<(), NoMemory>
    ensures { OnOk result (items.new.items ≡ items.old.items ++ changes) }
{
    put_many(items, Ask::Move)?;
    put_many(items, Ask::Sign)?;
    put_many(items, Ask::Set)
}

fn put_added(items: &mut Vec<Item>, held: &BTreeSet<u64>) -> Result<(), NoMemory>
    ensures { OnOk result (items.new.items ≡ items.old.items ++ map added held.now.keys) }
{
    for row in held {
        put_one(items, Ask::Added { row: *row })?;
    }
    Ok(())
}

fn put_settling(items: &mut Vec<Item>, held: &BTreeSet<u64>) -> Result<(), NoMemory>
    ensures { OnOk result (items.new.items ≡ items.old.items ++ settling held.now.keys) }
{
    if held.is_empty() {
        return Ok(());
    }
    put_one(items, Ask::Settle)?;
    put_added(items, held)
}

fn counted_slot(slot: Option<u64>, verdict: Verdict) -> Option<u64>
    ensures { result ≡ counted_slot slot verdict }
{
    match verdict {
        Verdict::Attributed => slot,
        _ => None,
    }
}

fn put_digest(items: &mut Vec<Item>, kind: EventKind) -> Result<(), NoMemory>
    ensures { OnOk result (items.new.items ≡ items.old.items ++ digest_of kind) }
{
    match kind {
        EventKind::Statement => put_maybe(items, Ask::Digest),
        _ => Ok(()),
    }
}

fn put_counting(items: &mut Vec<Item>, slot: Option<u64>, event: &Opened) -> Result<(), NoMemory>
    ensures { OnOk result (items.new.items ≡ items.old.items ++ counting slot event.now true) }
{
    put_one(
        items,
        Ask::Summary {
            slot: counted_slot(slot, event.verdict),
            cell: event.subject.cell,
        },
    )?;
    put_digest(items, event.subject.kind)?;
    put_puts(items)
}

fn put_ending(items: &mut Vec<Item>, slot: Option<u64>, event: &Opened) -> Result<(), NoMemory>
    ensures { OnOk result (items.new.items ≡ items.old.items ++ ending slot event.now) }
{
    let through = event.verdict.is_let_through();
    put_one(
        items,
        Ask::End {
            through: slot.is_some() && through,
        },
    )?;
    if through {
        put_counting(items, slot, event)
    } else {
        Ok(())
    }
}

fn is_of_stage(event: &Opened) -> bool
    ensures { result ≡ is_stage event.now.subject.kind }
{
    matches!(event.subject.kind, EventKind::Stage)
}

fn put_ending_first(
    items: &mut Vec<Item>,
    slot: Option<u64>,
    opened: &[Opened],
) -> Result<(), NoMemory>
    ensures { OnOk result (items.new.items ≡ items.old.items ++ ending_first slot (reverse opened.now)) }
{
    match opened.last() {
        Some(event) => put_ending(items, slot, event),
        None => Ok(()),
    }
}

// Where the innermost event is a stage, its end.
fn put_ending_stage(
    items: &mut Vec<Item>,
    slot: Option<u64>,
    opened: &[Opened],
) -> Result<(), NoMemory>
    ensures { OnOk result (items.new.items ≡ items.old.items ++ ending_stage slot (reverse opened.now)) }
{
    match opened.last() {
        Some(event) => {
            if is_of_stage(event) {
                put_ending(items, slot, event)
            } else {
                Ok(())
            }
        }
        None => Ok(()),
    }
}

fn put_ending_around(
    items: &mut Vec<Item>,
    slot: Option<u64>,
    event: &Opened,
    outer: &[Opened],
) -> Result<(), NoMemory>
    ensures { OnOk result (items.new.items ≡ items.old.items
        ++ (if is_stage event.now.subject.kind then ending_first slot (reverse outer.now) else [])) }
{
    if is_of_stage(event) {
        put_ending_first(items, slot, outer)
    } else {
        Ok(())
    }
}

// The end of the innermost event and, where that is a stage, of the event around it.
fn put_ending_both(
    items: &mut Vec<Item>,
    slot: Option<u64>,
    opened: &[Opened],
) -> Result<(), NoMemory>
    ensures { OnOk result (items.new.items ≡ items.old.items ++ ending_both slot (reverse opened.now)) }
{
    match opened.split_last() {
        Some((event, outer)) => {
            put_ending(items, slot, event)?;
            put_ending_around(items, slot, event, outer)
        }
        None => Ok(()),
    }
}

// Where the innermost event is a stage, its end; and the start of another.
fn put_stage(
    items: &mut Vec<Item>,
    slot: Option<u64>,
    opened: &[Opened],
    subject: &Subject,
) -> Result<(), NoMemory>
    ensures { OnOk result (items.new.items ≡ items.old.items
        ++ (ending_stage slot (reverse opened.now) ++ starting slot subject.now)) }
{
    put_ending_stage(items, slot, opened)?;
    put_starting(items, slot, subject)
}

// A settling, and an action with its changes.
fn put_change(items: &mut Vec<Item>, held: &BTreeSet<u64>) -> Result<(), NoMemory>
    ensures { OnOk result (items.new.items ≡ items.old.items ++ (settling held.now.keys ++ one asks.Act ∷ changes)) }
{
    put_settling(items, held)?;
    put_one(items, Ask::Act)?;
    put_changes(items)
}

// The same, and what is told behind it.
fn put_told(items: &mut Vec<Item>, held: &BTreeSet<u64>, told: Ask) -> Result<(), NoMemory>
    ensures { OnOk result (items.new.items ≡ items.old.items
        ++ (settling held.now.keys ++ one asks.Act ∷ (changes ++ one told ∷ []))) }
{
    put_change(items, held)?;
    put_one(items, told)
}

fn put_connect(items: &mut Vec<Item>) -> Result<(), NoMemory>
    ensures { OnOk result (items.new.items ≡ items.old.items ++ one asks.Connect ∷ changes) }
{
    put_one(items, Ask::Connect)?;
    put_changes(items)
}

fn put_query(items: &mut Vec<Item>) -> Result<(), NoMemory>
    ensures { OnOk result (items.new.items ≡ items.old.items
        ++ one asks.Query ∷ many asks.Reading ∷ one asks.Rows ∷ []) }
{
    put_one(items, Ask::Query)?;
    put_many(items, Ask::Reading)?;
    put_one(items, Ask::Rows)
}

// What a line asks for and allows, by a session's printed slot, its open events and the rows for which it holds something.
fn put_allowed(
    items: &mut Vec<Item>,
    slot: Option<u64>,
    opened: &[Opened],
    held: &BTreeSet<u64>,
    line: &Line,
) -> Result<(), NoMemory>
    ensures { OnOk result (items.new.items ≡ items.old.items
        ++ shape (shaping slot (reverse opened.now) held.now.keys) line.now) }
{
    match line {
        Line::Connect => put_connect(items),
        Line::Start { subject } => put_starting(items, slot, subject),
        Line::Stage { subject } => put_stage(items, slot, opened, subject),
        Line::StageEnd => put_ending_stage(items, slot, opened),
        Line::End => put_ending_both(items, slot, opened),
        Line::Spend => Ok(()),
        Line::Change => put_told(items, held, Ask::Answer),
        Line::Quit => put_change(items, held),
        Line::Show => put_told(items, held, Ask::Rows),
        Line::Query => put_query(items),
        Line::Refused { .. } => put_one(items, Ask::Error),
        Line::Close => put_settling(items, held),
    }
}

/// What a line asks for and allows behind the entries that a trail has, in place of what the list had.
pub(crate) fn put_shape(items: &mut Vec<Item>, trail: &Trail, line: &Line) -> Result<(), NoMemory>
    ensures { OnOk result (items.new.items ≡ shape (shaping trail.now.slot trail.now.opened trail.now.held) line.now) }
{
    items.clear();
    put_allowed(
        items,
        trail.slot(),
        trail.opened().as_slice(),
        trail.held(),
        line,
    )
}
