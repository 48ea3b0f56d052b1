//! The rule of the table, and what each step tells.
ghost use Rattle.pfs_switches.specs.Knowledge.{whole, split_left, split_right, reader, writer, joined, gathered, handed, spent};
ghost use Rattle.pfs_switches.specs.Plays.{looks, weighs, sets, tells, checks};
ghost use Rattle.pfs_switches.specs.Rule.{Ruled};

use crate::view::View;
use atomic_table::{Join, Play, Split, TableRule};

pub struct Rules;

impl TableRule<(), View, Vec<u64>> for Rules {
    ghost holds = { λ key. Ruled key.items };

    ghost first = { λ key. whole key.items };
}

pub(crate) struct Look;

impl<S> Play<S, View> for Look {
    ghost then = { looks };
}

pub(crate) struct Weigh;

impl<S> Play<S, View> for Weigh {
    ghost then = { weighs };
}

pub(crate) struct Put;

impl<S> Play<S, View> for Put {
    ghost then = { sets };
}

pub(crate) struct Tell;

impl<S> Play<S, View> for Tell {
    ghost then = { tells };
}

pub(crate) struct Check;

impl<S> Play<S, View> for Check {
    ghost then = { checks };
}

// A reader and the writer, at the opening and at the end of a meeting.
pub(crate) struct Part;

impl Split<View> for Part {
    ghost left = { reader };

    ghost right = { writer };
}

// A seat of the root's.
pub(crate) struct Cut;

impl Split<View> for Cut {
    ghost left = { split_left };

    ghost right = { split_right };
}

pub(crate) struct Glue;

impl Join<View> for Glue {
    ghost both = { joined };

    ghost spent = { spent };
}

// A meeting: a seat and the writer in one.
pub(crate) struct Gather;

impl Join<View> for Gather {
    ghost both = { gathered };

    ghost spent = { spent };
}

// The end: a seat has the writer's sets.
pub(crate) struct Hand;

impl Join<View> for Hand {
    ghost both = { handed };

    ghost spent = { spent };
}
