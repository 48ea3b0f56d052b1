//! Conditions in a list.
ghost use Rattle.std.specs.Prelude.{◌≡◌};

use pfs_text::Test;
use std::marker::Model;

/// Conditions, in order. A row meets them where it meets each one; with none, every row does.
#[derive(Debug, Drop)]
pub struct TestList {
    items: Vec<Test>,
}

impl Model for TestList {
    ghost use Rattle.std.specs.Prelude.{List};
    ghost use Rattle.pfs_text.specs.declared.conditions.Test.{Test};

    ghost Value = { List Test };

    ghost view = { λ tests. tests.items.items };
}

impl TestList {
    /// The list of these conditions. It takes no memory.
    pub fn new(items: Vec<Test>) -> TestList
        ensures { result ≡ items.items }
    {
        TestList { items }
    }

    /// The conditions, in order.
    pub fn as_slice(&self) -> &[Test]
        ensures { result.now ≡ self.now }
    {
        self.items.as_slice()
    }
}
