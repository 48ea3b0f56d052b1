//! A command with its names as they are written.
use crate::lists::{AssignmentList, NamedOrderList, NamedTestList, TextList};
use pfs_text::{TestKind, Text};

/// One condition of a `WHERE`: the column as it is written, and what it asks of the value there.
#[derive(Debug, Drop)]
pub struct NamedTest {
    pub column: Text,
    pub kind: TestKind,
}

/// One column of an `ORDER BY` as it is written, and whether `DESC` follows it.
#[derive(Debug, Drop)]
pub struct NamedOrder {
    pub column: Text,
    pub descending: bool,
}

/// One `column = 'text'` of a `SET`.
#[derive(Debug, Drop)]
pub struct Assignment {
    pub column: Text,
    pub value: Text,
}

/// `SELECT * | columns FROM table [WHERE ..] [ORDER BY ..] [LIMIT number]`. For `*`, `columns` is None.
#[derive(Debug, Drop)]
pub struct SelectCommand {
    pub columns: Option<TextList>,
    pub table: Text,
    pub tests: NamedTestList,
    pub order: NamedOrderList,
    pub limit: Option<u64>,
}

/// `UPDATE table SET column = 'text', .. [WHERE ..]`.
#[derive(Debug, Drop)]
pub struct UpdateCommand {
    pub table: Text,
    pub sets: AssignmentList,
    pub tests: NamedTestList,
}

/// `INSERT INTO table [(columns)] VALUES ('text', ..)`. Without a list, `columns` is None.
#[derive(Debug, Drop)]
pub struct InsertCommand {
    pub table: Text,
    pub columns: Option<TextList>,
    pub values: TextList,
}

/// `DELETE FROM table [WHERE ..]`.
#[derive(Debug, Drop)]
pub struct DeleteCommand {
    pub table: Text,
    pub tests: NamedTestList,
}

/// `TRUNCATE [TABLE] table`.
#[derive(Debug, Drop)]
pub struct TruncateCommand {
    pub table: Text,
}

/// What a text asks for. A table is named without its schema, with the letters' case as it is written; so is a column.
#[derive(Debug, Drop)]
pub enum Command {
    Select(SelectCommand),
    Update(UpdateCommand),
    Insert(InsertCommand),
    Delete(DeleteCommand),
    Truncate(TruncateCommand),
}
