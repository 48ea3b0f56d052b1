//! Which places and words a table has.

ghost use Rattle.std.specs.Prelude.{◌≡◌, ◌<◌, ℕ, false, slice_index_or, slice_get};
ghost use Rattle.pfs_readsets.specs.TablePlaces as spec;
ghost use Rattle.pfs_readsets.specs.TablePlaces.{scope_of};

use pfs_classes::{Class, ClassId, Classes, Kind, Setting};
use pfs_rows::{CURRENT_PLACES, EventTable, HISTORY_PLACES, SummaryTable, Table, TableKind};

// How many cells a thread, account, user or host has.
pub(crate) const CELLS: usize = 64;

/// The kind of events that a class of this kind has: the first seven kinds are those of waits.
pub fn table_kind(kind: Kind) -> TableKind
    ensures { result ≡ spec.table_kind kind }
{
    match kind {
        Kind::Mutex
        | Kind::Rwlock
        | Kind::Cond
        | Kind::File
        | Kind::Socket
        | Kind::TableIo
        | Kind::TableLock => TableKind::Waits,
        Kind::Stage => TableKind::Stages,
        Kind::Statement => TableKind::Statements,
        Kind::Transaction => TableKind::Transactions,
    }
}

/// Whether there is a class and it has events of the kind.
pub fn is_class_of(kind: TableKind, class: Option<Class>) -> bool
    ensures { result ≡ spec.is_class_of kind class }
{
    match class {
        Some(class) => table_kind(class.kind) == kind,
        None => false,
    }
}

// Whether the class with this id is registered beside `transaction` and has events of the kind.
fn is_class(classes: &Classes, kind: TableKind, id: u64) -> bool
    ensures { result ≡ spec.is_class_of kind (slice_get classes.now.classes id) }
{
    id < classes.count() && is_class_of(kind, Some(classes.class(ClassId(id))))
}

/// Whether the cell is one of a registered class of the kind. `transaction` has cell 62 for READ
/// WRITE and 63 for READ ONLY.
pub fn is_kind_cell(classes: &Classes, kind: TableKind, cell: u64) -> bool
    ensures { result ≡ spec.is_kind_cell classes.now.classes kind cell }
{
    match kind {
        TableKind::Waits | TableKind::Stages | TableKind::Statements => {
            is_class(classes, kind, cell)
        }
        TableKind::Transactions => 62 <= cell && cell < 64,
    }
}

fn has_cell(setting: &Setting, table: Table, cell: u64) -> bool
    ensures { result ≡ spec.has_cell (scope_of setting.now) table cell }
{
    match table {
        Table::Summary(kind, _) => is_kind_cell(&setting.classes, kind, cell),
        _ => false,
    }
}

/// The cells that a table has, as a flag for each cell.
pub(crate) fn cells_of(setting: &Setting, table: Table) -> [bool; CELLS]
    ensures { (cell : ℕ) → cell < 64
        → slice_index_or result cell false ≡ spec.has_cell (scope_of setting.now) table cell }
{
    let mut cells = [false; CELLS];
    for cell in 0..CELLS {
        cells[cell] = has_cell(setting, table, cell as u64);
    }
    cells
}

pub(crate) fn has_threads(table: Table) -> bool
    ensures { result ≡ spec.has_threads table }
{
    matches!(
        table,
        Table::Threads
            | Table::Events(_, EventTable::Current | EventTable::History)
            | Table::Summary(_, _)
    )
}

pub(crate) fn has_accounts(table: Table) -> bool
    ensures { result ≡ spec.has_accounts table }
{
    match table {
        Table::Accounts => true,
        Table::Summary(_, SummaryTable::ByThread) => false,
        Table::Summary(_, _) => true,
        _ => false,
    }
}

pub(crate) fn has_users(table: Table) -> bool
    ensures { result ≡ spec.has_users table }
{
    matches!(
        table,
        Table::Users | Table::Summary(_, SummaryTable::ByUser)
    )
}

pub(crate) fn has_hosts(table: Table) -> bool
    ensures { result ≡ spec.has_hosts table }
{
    matches!(
        table,
        Table::Hosts | Table::Summary(_, SummaryTable::ByHost | SummaryTable::Global)
    )
}

pub(crate) fn is_global(table: Table) -> bool
    ensures { result ≡ spec.is_global table }
{
    matches!(table, Table::Summary(_, SummaryTable::Global))
}

pub(crate) fn is_digest(table: Table) -> bool
    ensures { result ≡ spec.is_digest table }
{
    matches!(table, Table::DigestSummary)
}

// The ring places of a kind's current events.
fn is_current(kind: TableKind, place: u64) -> bool
    ensures { result ≡ spec.is_current kind place }
{
    match kind {
        TableKind::Waits => place < 4,
        TableKind::Stages => place == 4,
        TableKind::Statements => 5 <= place && place < 15,
        TableKind::Transactions => place == 15,
    }
}

// The ring places of a kind's history.
fn is_history(kind: TableKind, place: u64) -> bool
    ensures { result ≡ spec.is_history kind place }
{
    let first = CURRENT_PLACES + HISTORY_PLACES * kind.number();
    first <= place && place < first + HISTORY_PLACES
}

/// Whether the table has the ring place, of the 56 that a thread has: 0 to 3 are its current waits by
/// depth, 4 its current stage, 5 to 14 its current statements by depth, 15 its current transaction, and
/// then come ten of each kind's history.
pub fn has_ring(table: Table, place: u64) -> bool
    ensures { result ≡ spec.has_ring table place }
{
    match table {
        Table::Events(kind, EventTable::Current) => is_current(kind, place),
        Table::Events(kind, EventTable::History) => is_history(kind, place),
        _ => false,
    }
}

/// Whether the table has the long history of the kind with this number.
pub fn has_long(table: Table, number: u64) -> bool
    ensures { result ≡ spec.has_long table number }
{
    match table {
        Table::Events(kind, EventTable::HistoryLong) => kind.number() == number,
        _ => false,
    }
}
