//! What a line starts.

ghost use Rattle.std.specs.Prelude.{◌≡◌};
ghost use Rattle.pfs_runs.specs.ScriptLines.{cell_in, class_in, stage_on, statement_on, transaction_on, wait_on};

use pfs_classes::{ClassId, ClassRef, TRANSACTION};
use pfs_event::EventKind;
use pfs_model::Subject;
use pfs_rows::READ_ONLY_CELL;
use pfs_script::Access;

fn class_in(class: ClassRef) -> Option<u64>
    ensures { result ≡ class_in class }
{
    match class {
        ClassRef::Class(id) => Some(id.0),
        ClassRef::Lost(_) => None,
    }
}

fn cell_in(access: Option<Access>, class: Option<u64>) -> u64
    ensures { result ≡ cell_in access class }
{
    match access {
        Some(Access::ReadOnly) => READ_ONLY_CELL,
        Some(Access::ReadWrite) | None => class.unwrap_or(0),
    }
}

/// A wait of a class, on a table or on none.
pub(crate) fn wait_on(class: ClassRef, table: Option<u64>) -> Subject
    ensures { result ≡ wait_on class table }
{
    let class = class_in(class);
    Subject {
        kind: EventKind::Wait,
        class,
        cell: cell_in(None, class),
        table,
        digest: None,
    }
}

/// A statement of a class, with the place of its digest text where it has one.
pub(crate) fn statement_on(class: ClassRef, digest: Option<u64>) -> Subject
    ensures { result ≡ statement_on class digest }
{
    let class = class_in(class);
    Subject {
        kind: EventKind::Statement,
        class,
        cell: cell_in(None, class),
        table: None,
        digest,
    }
}

/// A transaction, which counts by how it uses the data.
pub(crate) fn transaction_on(access: Access) -> Subject
    ensures { result ≡ transaction_on access }
{
    let class = class_in(ClassRef::Class(ClassId(TRANSACTION)));
    Subject {
        kind: EventKind::Transaction,
        class,
        cell: cell_in(Some(access), class),
        table: None,
        digest: None,
    }
}

/// A stage of a class.
pub(crate) fn stage_on(class: ClassRef) -> Subject
    ensures { result ≡ stage_on class }
{
    let class = class_in(class);
    Subject {
        kind: EventKind::Stage,
        class,
        cell: cell_in(None, class),
        table: None,
        digest: None,
    }
}
