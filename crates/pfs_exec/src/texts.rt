//! Laws of what a text of SQL asks for.

ghost use Rattle.std.specs.Prelude.{◌≡◌, ℕ, List, Some, None};
ghost use Rattle.pfs_sql.specs.Grammar.{Says};
ghost use Rattle.pfs_sql.specs.declared.command.Command.{Command};
ghost use Rattle.pfs_exec.specs.RequestLaws.{NamedLaw, RequestsLaw, RowLaw, TruncatedLaw};
ghost use Rattle.pfs_exec.specs.Requests.{command_in};

/// The command that is read of a text is the one that it says by the grammar, and none is read exactly of a text that
/// says none.
pub fn commands_are_said()
    ensures said { (text : List ℕ) (command : Command) → Says text command → command_in text ≡ Some command }
    ensures read { (text : List ℕ) (command : Command) → command_in text ≡ Some command → Says text command }
    ensures none { (text : List ℕ) → ((command : Command) → ¬ Says text command) → command_in text ≡ None }
{}

/// The catalogue allows a TRUNCATE of just the tables that have a truncation.
pub fn truncations_are_allowed()
    ensures { TruncatedLaw }
{}

/// The table that is found by a name is the one that has it.
pub fn tables_are_named()
    ensures { NamedLaw }
{
    pfs_catalogue::laws::one_table();
}

/// What each text asks for, by the command that it says and by the table that this names.
pub fn requests_are_planned()
    ensures { RequestsLaw }
{
    pfs_catalogue::laws::one_table();
}

/// The texts of a new row are made of bytes of the text that asks for it, and of `%`.
pub fn rows_are_of_the_text()
    ensures { RowLaw }
{}
