//! The rule of the table, and what each step tells.
ghost use Rattle.std.specs.Prelude.{List};
ghost use Rattle.pfs_board.specs.declared.view.Label.{Label};
ghost use Rattle.pfs_board.specs.Knowledge.{root, split_left, split_right, joined, spent};
ghost use Rattle.pfs_board.specs.Rule.{Ruled};
ghost use Rattle.pfs_board.specs.Plays.{tries, looks, finishes, takes, gathers, recalls, weighs, stores, publishes, frees, tells, waits, enters, lends, hands, fetches, restores, leaves};

use crate::view::{Label, View};
use atomic_table::{Join, Play, Split, TableRule};
use std::marker::PhantomData;

/// A value that stands for the labels of actions, which it needn't store.
pub trait Kept: Drop {
    ghost stands_for: { Self → List Label → Type 0 };
}

pub struct Rules<K> {
    marker: PhantomData<K>,
}

impl<K: Kept> TableRule<Option<K>, View, Vec<u64>> for Rules<K> {
    ghost holds = { λ key. Ruled K.stands_for key.items };

    ghost first = { λ key. root key.items };
}

pub(crate) struct Try;

impl<S> Play<S, View> for Try {
    ghost then = { tries };
}

pub(crate) struct Look;

impl<S> Play<S, View> for Look {
    ghost then = { looks };
}

pub(crate) struct Finish;

impl<S> Play<S, View> for Finish {
    ghost then = { finishes };
}

pub(crate) struct Seize;

impl<S> Play<S, View> for Seize {
    ghost then = { takes };
}

pub(crate) struct Gather;

impl<S> Play<S, View> for Gather {
    ghost then = { gathers };
}

pub(crate) struct Recall;

impl<S> Play<S, View> for Recall {
    ghost then = { recalls };
}

pub(crate) struct Weigh;

impl<S> Play<S, View> for Weigh {
    ghost then = { weighs };
}

pub(crate) struct Store;

impl<S> Play<S, View> for Store {
    ghost then = { stores };
}

pub(crate) struct Publish;

impl<S> Play<S, View> for Publish {
    ghost then = { publishes };
}

pub(crate) struct Release;

impl<S> Play<S, View> for Release {
    ghost then = { frees };
}

pub(crate) struct Tell;

impl<S> Play<S, View> for Tell {
    ghost then = { tells };
}

pub(crate) struct Retry;

impl<S> Play<S, View> for Retry {
    ghost then = { waits };
}

pub(crate) struct Enter<K> {
    marker: PhantomData<K>,
}

impl<K: Kept> Play<Option<K>, View> for Enter<K> {
    ghost then = { enters K.stands_for };
}

pub(crate) struct Lend<K> {
    marker: PhantomData<K>,
}

impl<K: Kept> Play<Option<K>, View> for Lend<K> {
    ghost then = { lends K.stands_for };
}

pub(crate) struct Hand;

impl<K> Play<Option<K>, View> for Hand {
    ghost then = { hands };
}

pub(crate) struct Fetch;

impl<K> Play<Option<K>, View> for Fetch {
    ghost then = { fetches };
}

pub(crate) struct Restore;

impl<K> Play<Option<K>, View> for Restore {
    ghost then = { restores };
}

pub(crate) struct Leave;

impl<K> Play<Option<K>, View> for Leave {
    ghost then = { leaves };
}

pub(crate) struct Cut;

impl Split<View> for Cut {
    ghost left = { split_left };

    ghost right = { split_right };
}

pub(crate) struct Glue;

impl Join<View> for Glue {
    ghost both = { joined };

    ghost spent = { spent };
}
