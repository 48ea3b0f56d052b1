//! What follows from the definitions for all texts.
ghost use Rattle.std.specs.Prelude.{◌≡◌, ℕ, List};
ghost use Rattle.pfs_sql.specs.declared.command.Command.{Command};
ghost use Rattle.pfs_sql.specs.Grammar.{Says};

/// No text is two commands.
pub fn one_command()
    ensures { (text : List ℕ) (a b : Command) → Says text a → Says text b → a ≡ b }
{}
