//! What may be done with each table.
ghost use Rattle.std.specs.Prelude.{◌≡◌, ◌≢◌, MatchOption, Some};
ghost use Rattle.pfs_catalogue.specs.declared.commands.Flag.{Flag as SpecFlag};
ghost use Rattle.pfs_catalogue.specs.TableCommands.{flag_place as place_of_flag, is_allowed};

use pfs_rows::Table;

/// A command on a table.
#[derive(Clone, Copy, Debug, PartialEq, Eq)]
pub enum CommandKind {
    Select,
    Update,
    Insert,
    Delete,
    Truncate,
}

/// Which of the two flags of a row.
#[derive(Clone, Copy, Debug, PartialEq, Eq)]
pub enum Flag {
    First,
    Second,
}

/// Whether the command is allowed on the table. Every table may be read. That INSERT and DELETE are for
/// `setup_actors` and `setup_objects` alone, and TRUNCATE for all but `setup_instruments`, `setup_consumers` and
/// `threads`, is MySQL's rule.
pub fn allows(table: Table, command: CommandKind) -> bool
    ensures { result ≡ is_allowed table command }
{
    match command {
        CommandKind::Select => true,
        CommandKind::Update => matches!(
            table,
            Table::SetupActors
                | Table::SetupObjects
                | Table::SetupInstruments
                | Table::SetupConsumers
                | Table::Threads
        ),
        CommandKind::Insert | CommandKind::Delete => {
            matches!(table, Table::SetupActors | Table::SetupObjects)
        }
        CommandKind::Truncate => !matches!(
            table,
            Table::SetupInstruments | Table::SetupConsumers | Table::Threads
        ),
    }
}

/// The place of the column that shows this flag, from 0; none where the table's rows don't have it. These are the
/// columns that an UPDATE may change.
pub fn flag_place(table: Table, flag: Flag) -> Option<u64>
    ensures { result ≡ place_of_flag table flag }
{
    match (table, flag) {
        (Table::SetupActors | Table::SetupObjects | Table::Threads, Flag::First) => Some(3),
        (Table::SetupActors | Table::SetupObjects | Table::Threads, Flag::Second) => Some(4),
        (Table::SetupInstruments | Table::SetupConsumers, Flag::First) => Some(1),
        (Table::SetupInstruments, Flag::Second) => Some(2),
        _ => None,
    }
}

/// The flag that the column at this place shows, from 0; none where an UPDATE may not change it.
pub fn flag_at(table: Table, place: u64) -> Option<Flag>
    ensures { MatchOption result ((flag : SpecFlag)
        → place_of_flag table flag ≢ Some place) (λ flag. place_of_flag table flag ≡ Some place) }
{
    if flag_place(table, Flag::First) == Some(place) {
        return Some(Flag::First);
    }
    if flag_place(table, Flag::Second) == Some(place) {
        return Some(Flag::Second);
    }
    None
}
