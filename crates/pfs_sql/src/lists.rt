//! The lists of a command.
ghost use Rattle.std.specs.Prelude.{◌≡◌};

use crate::command::{Assignment, NamedOrder, NamedTest};
use pfs_text::Text;
use std::marker::Model;

/// A list of texts.
#[derive(Debug, Drop)]
pub struct TextList {
    items: Vec<Text>,
}

impl Model for TextList {
    ghost use Rattle.std.specs.Prelude.{List, ℕ};

    ghost Value = { List (List ℕ) };

    ghost view = { λ list. list.items.items };
}

impl TextList {
    /// The list of these texts. It takes no memory.
    pub fn new(items: Vec<Text>) -> TextList
        ensures { result ≡ items.items }
    {
        TextList { items }
    }

    /// The texts in order.
    pub fn as_slice(&self) -> &[Text]
        ensures { result.now ≡ self.now }
    {
        self.items.as_slice()
    }

    /// The texts, given back without taking memory.
    pub fn into_vec(self) -> Vec<Text>
        ensures { result.items ≡ self }
    {
        self.items
    }
}

/// A list of conditions.
#[derive(Debug, Drop)]
pub struct NamedTestList {
    items: Vec<NamedTest>,
}

impl Model for NamedTestList {
    ghost use Rattle.std.specs.Prelude.{List};
    ghost use Rattle.pfs_sql.specs.declared.command.NamedTest.{NamedTest};

    ghost Value = { List NamedTest };

    ghost view = { λ list. list.items.items };
}

impl NamedTestList {
    /// The list of these conditions. It takes no memory.
    pub fn new(items: Vec<NamedTest>) -> NamedTestList
        ensures { result ≡ items.items }
    {
        NamedTestList { items }
    }

    /// The conditions in order.
    pub fn as_slice(&self) -> &[NamedTest]
        ensures { result.now ≡ self.now }
    {
        self.items.as_slice()
    }

    /// The conditions, given back without taking memory.
    pub fn into_vec(self) -> Vec<NamedTest>
        ensures { result.items ≡ self }
    {
        self.items
    }
}

/// A list of columns to order by.
#[derive(Debug, Drop)]
pub struct NamedOrderList {
    items: Vec<NamedOrder>,
}

impl Model for NamedOrderList {
    ghost use Rattle.std.specs.Prelude.{List};
    ghost use Rattle.pfs_sql.specs.declared.command.NamedOrder.{NamedOrder};

    ghost Value = { List NamedOrder };

    ghost view = { λ list. list.items.items };
}

impl NamedOrderList {
    /// The list of these columns to order by. It takes no memory.
    pub fn new(items: Vec<NamedOrder>) -> NamedOrderList
        ensures { result ≡ items.items }
    {
        NamedOrderList { items }
    }

    /// The columns to order by in order.
    pub fn as_slice(&self) -> &[NamedOrder]
        ensures { result.now ≡ self.now }
    {
        self.items.as_slice()
    }

    /// The columns to order by, given back without taking memory.
    pub fn into_vec(self) -> Vec<NamedOrder>
        ensures { result.items ≡ self }
    {
        self.items
    }
}

/// A list of assignments.
#[derive(Debug, Drop)]
pub struct AssignmentList {
    items: Vec<Assignment>,
}

impl Model for AssignmentList {
    ghost use Rattle.std.specs.Prelude.{List};
    ghost use Rattle.pfs_sql.specs.declared.command.Assignment.{Assignment};

    ghost Value = { List Assignment };

    ghost view = { λ list. list.items.items };
}

impl AssignmentList {
    /// The list of these assignments. It takes no memory.
    pub fn new(items: Vec<Assignment>) -> AssignmentList
        ensures { result ≡ items.items }
    {
        AssignmentList { items }
    }

    /// The assignments in order.
    pub fn as_slice(&self) -> &[Assignment]
        ensures { result.now ≡ self.now }
    {
        self.items.as_slice()
    }

    /// The assignments, given back without taking memory.
    pub fn into_vec(self) -> Vec<Assignment>
        ensures { result.items ≡ self }
    {
        self.items
    }
}
