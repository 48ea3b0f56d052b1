//! The calls of an action, which has row 0 and the kept value, and those that lend the value, by the steps of the
//! table.
ghost use Rattle.std.specs.Prelude.{◌≡◌, ℕ, ◌+◌, ◌*◌, ◌<◌, ◌≤◌, ◌++◌, ◌∷◌, true, false, [], length, Some, IfSome, IfNone, List};
ghost use Rattle.pfs_board.specs.declared.view.Label.{Label};
ghost use Rattle.pfs_board.specs.ActionKnowledge.{HasWaited, HasTaken, HasBegun};
ghost use Rattle.pfs_board.specs.WholeSeats.{History};
ghost use Rattle.pfs_board.specs.History.{all_changes, labels_of};
ghost use Rattle.pfs_board.specs.Knowledge.{corner, is_holding, held, told, weighed, ended, lent_with, restored, IsWhole};
ghost use Rattle.pfs_board.specs.SeatDemands.{IsAt, IsCalm};

use crate::rules::{Enter, Fetch, Hand, Kept, Leave, Lend, Restore, Retry, Tell, Weigh};
use crate::steps::{Sitting, Top};
use crate::view::Label;
use pfs_word::{LockWord, State};
use std::sync::Wait;
use std::thread::yield_now;

// The two steps tell the rule the label, and leave the word as it is.
fn tell_label<V: Kept>(top: &Top<V>, seat: &mut Sitting<V>, label: Label)
    requires at { IsAt seat.old.table_id top.now.table_id top.now.key.items seat.old.me.0 0 }
    ensures table { seat.new.table_id ≡ seat.old.table_id }
    ensures told { seat.new.me ≡ (told (told seat.old.me.0 label.line) label.session, seat.old.me.1) }
{
    top.compare_exchange::<Tell>(seat, 0, label.line, label.line);
    top.compare_exchange::<Tell>(seat, 0, label.session, label.session);
}

// One try to take row 0. It answers how many labels there are.
fn try_enter<V: Kept>(top: &Top<V>, seat: &mut Sitting<V>) -> Option<u64>
    requires at { IsAt seat.old.table_id top.now.table_id top.now.key.items seat.old.me.0 0 }
    requires outside { (seat.old.me.0.action ≡ 0) × (seat.old.me.0.lent ≡ false)
        × (held seat.old.me.0.rows < seat.old.me.0.allowance) }
    ensures table { seat.new.table_id ≡ seat.old.table_id }
    ensures taken { IfSome result (λ k. HasTaken V.stands_for seat.old.me k seat.new.me
        × (seat.old.me.0.looks + 2 ≤ seat.new.me.0.looks) × ((corner seat.old.me.0 0).seen ≤ k) × (k < all_changes)
        × (is_holding (corner seat.old.me.0 0).stage ≡ false)) }
    ensures waited { IfNone result (HasWaited seat.old.me.0 seat.new.me.0 × (seat.new.me.1 ≡ seat.old.me.1)) }
{
    let word = top.load::<Retry>(seat, 0);
    if let State::Dirty = LockWord::new(word).state() {
        return None;
    }
    let dirty = LockWord::new(word).to_dirty().word();
    let found = top.compare_exchange::<Enter<V>>(seat, 0, word, dirty);
    if found == word {
        Some(LockWord::new(word).version())
    } else {
        None
    }
}

// Tries until row 0 is taken.
fn take_first<R: Wait, V: Kept>(rt: &R, top: &Top<V>, seat: &mut Sitting<V>) -> u64
    requires at { IsAt seat.old.table_id top.now.table_id top.now.key.items seat.old.me.0 0 }
    requires outside { (seat.old.me.0.action ≡ 0) × (seat.old.me.0.lent ≡ false)
        × (held seat.old.me.0.rows < seat.old.me.0.allowance) }
    ensures table { seat.new.table_id ≡ seat.old.table_id }
    ensures taken { HasTaken V.stands_for seat.old.me result seat.new.me
        × (seat.old.me.0.looks + 2 ≤ seat.new.me.0.looks) × ((corner seat.old.me.0 0).seen ≤ result)
        × (result < all_changes) × (is_holding (corner seat.old.me.0 0).stage ≡ false) }
{
    for _ in rt.forever() {
        if let Some(labels) = try_enter(top, seat) {
            return labels;
        }
        yield_now();
    }
    unreachable!()
}

pub(crate) fn enter_by<R: Wait, V: Kept>(
    rt: &R,
    top: &Top<V>,
    seat: &mut Sitting<V>,
    label: Label,
) -> (u64, V)
    requires at { IsAt seat.old.table_id top.now.table_id top.now.key.items seat.old.me.0 0 }
    requires slots { top.now.table_id.slots ≡ 1 }
    requires calm { (seat.old.me.1 ≡ []) × (seat.old.me.0.said ≡ []) × (seat.old.me.0.moving ≡ false) }
    requires outside { (seat.old.me.0.action ≡ 0) × (seat.old.me.0.lent ≡ false)
        × (held seat.old.me.0.rows < seat.old.me.0.allowance) }
    ensures seat { (seat.new.table_id ≡ seat.old.table_id) × (seat.new.me.1 ≡ []) }
    ensures number { (result.0 ≡ length seat.new.me.0.labels + 1) × (result.0 ≤ all_changes) }
    ensures value { V.stands_for result.1 seat.new.me.0.labels }
    ensures begun { HasBegun seat.old.me.0 label seat.new.me.0 }
    ensures free { is_holding (corner seat.old.me.0 0).stage ≡ false }
{
    tell_label(top, seat, label);
    let labels = take_first(rt, top, seat);
    let Some(value) = top.exchange(seat, 0, None) else {
        unreachable!()
    };
    top.load::<Hand>(seat, 0);
    (labels + 1, value)
}

pub(crate) fn leave_by<V: Kept>(top: &Top<V>, seat: &mut Sitting<V>, value: V)
    requires at { IsAt seat.old.table_id top.now.table_id top.now.key.items seat.old.me.0 0 }
    requires slots { top.now.table_id.slots ≡ 1 }
    requires calm { (seat.old.me.1 ≡ []) × (seat.old.me.0.moving ≡ false) × IsCalm (corner seat.old.me.0 0).stage }
    requires inside { 0 < seat.old.me.0.action }
    requires value { V.stands_for value (seat.old.me.0.labels ++ seat.old.me.0.label ∷ []) }
    ensures seat { (seat.new.table_id ≡ seat.old.table_id) × (seat.new.me.1 ≡ []) }
    ensures view { seat.new.me.0 ≡ ended (weighed seat.old.me.0) }
    ensures later { (corner seat.old.me.0 0).seen < seat.old.me.0.action }
    ensures held { (is_holding (corner seat.old.me.0 0).stage ≡ true) × (0 < seat.old.me.0.allowance) }
{
    top.load::<Fetch>(seat, 0);
    let None = top.exchange(seat, 0, Some(value)) else {
        unreachable!()
    };
    let word = top.load::<Weigh>(seat, 0);
    let Some(next) = LockWord::new(word).to_allocated() else {
        unreachable!()
    };
    top.store::<Leave>(seat, 0, next.word());
}

pub(crate) fn lend_by<V: Kept>(top: &Top<V>, seat: &mut Sitting<V>) -> V
    requires at { IsAt seat.old.table_id top.now.table_id top.now.key.items seat.old.me.0 0 }
    requires slots { top.now.table_id.slots ≡ 1 }
    requires calm { (seat.old.me.1 ≡ []) × (seat.old.me.0.moving ≡ false) }
    requires whole { IsWhole seat.old.me.0 }
    requires outside { (seat.old.me.0.action ≡ 0) × (seat.old.me.0.lent ≡ false) }
    ensures seat { (seat.new.table_id ≡ seat.old.table_id) × (seat.new.me.1 ≡ []) }
    ensures value { V.stands_for result seat.new.me.0.labels }
    ensures history { (words : List ℕ) × (h : History seat.old.me.0.start words seat.old.me.0)
        × (seat.new.me.0.labels ≡ labels_of h.t.log) }
    ensures view { seat.new.me.0 ≡ lent_with seat.old.me.0 seat.new.me.0.labels }
{
    top.load::<Lend<V>>(seat, 0);
    let Some(value) = top.exchange(seat, 0, None) else {
        unreachable!()
    };
    top.load::<Hand>(seat, 0);
    value
}

pub(crate) fn restore_by<V: Kept>(top: &Top<V>, seat: &mut Sitting<V>, value: V)
    requires at { IsAt seat.old.table_id top.now.table_id top.now.key.items seat.old.me.0 0 }
    requires slots { top.now.table_id.slots ≡ 1 }
    requires calm { (seat.old.me.1 ≡ []) × (seat.old.me.0.moving ≡ false) }
    requires out { (seat.old.me.0.action ≡ 0) × (seat.old.me.0.lent ≡ true) }
    requires value { V.stands_for value seat.old.me.0.labels }
    ensures seat { (seat.new.table_id ≡ seat.old.table_id) × (seat.new.me.1 ≡ []) }
    ensures view { seat.new.me.0 ≡ restored seat.old.me.0 }
{
    top.load::<Fetch>(seat, 0);
    let None = top.exchange(seat, 0, Some(value)) else {
        unreachable!()
    };
    top.load::<Restore>(seat, 0);
}
