//! The rule of the table, and what each step tells.
ghost use Rattle.pfs_tickets.specs.Knowledge.{root, split_left, split_right, joined, spent};
ghost use Rattle.pfs_tickets.specs.Plays.{draws, tells, counts};
ghost use Rattle.pfs_tickets.specs.Rule.{Ruled};

use crate::view::View;
use atomic_table::{Join, Play, Split, TableRule};

pub struct Rules;

impl TableRule<(), View, ()> for Rules {
    ghost holds = { λ _. Ruled };

    ghost first = { λ _. root };
}

pub(crate) struct Draw;

impl<S> Play<S, View> for Draw {
    ghost then = { draws };
}

// How many draws the next split gives.
pub(crate) struct Tell;

impl<S> Play<S, View> for Tell {
    ghost then = { tells };
}

pub(crate) struct Count;

impl<S> Play<S, View> for Count {
    ghost then = { counts };
}

pub(crate) struct Cut;

impl Split<View> for Cut {
    ghost left = { split_left };

    ghost right = { split_right };
}

pub(crate) struct Glue;

impl Join<View> for Glue {
    ghost both = { joined };

    ghost spent = { spent };
}
