//! Reading a text as a command.
ghost use Rattle.std.specs.Prelude.{IfErr, IfOk};
ghost use Rattle.pfs_sql.specs.declared.command.Command.{Command};
ghost use Rattle.pfs_sql.specs.Grammar.{Refuses, Says};
ghost use Rattle.pfs_sql.specs.TokenReaders as reading;

use crate::command::Command;
use crate::commands::whole;
use crate::distinct::is_proper;
use crate::faults::SqlFault;
use crate::lexer::tokens_of;
use crate::token::Token;
use crate::words::REFUSED;
use std::alloc::Global;

// The command that the tokens spell.
#[tactic(auto, unfolding(crate::specs::TokenReaders::command_of))]
fn command_of(alloc: Global, tokens: &[Token]) -> Result<Command, SqlFault>
    ensures { reading.Gives (λ command. command) result (reading.command_of tokens.now) }
{
    let command = whole(alloc, tokens)?;
    if is_proper(alloc, &command)? {
        Ok(command)
    } else {
        Err(REFUSED)
    }
}

/// The command that the text says, with names as they are written; a table is named without the schema. `Error` of
/// `SqlError::Parse` (1064) comes exactly where the text says none: outside the grammar, where SET or INSERT's list
/// names a column twice in any case, and where INSERT's values are not as many as its columns, or as five where it
/// names none. The number is MySQL's; the grammar is a part of MySQL's. There is no other error but `NoMemory`.
pub fn parse(alloc: Global, text: &[u8]) -> Result<Command, SqlFault>
    ensures said { IfOk result (λ command. Says text.now command) }
    ensures refused { IfErr result (λ fault. Refuses fault ((command : Command) → ¬ Says text.now command)) }
{
    let tokens = tokens_of(alloc, text)?;
    let command = command_of(alloc, &tokens)?;
    Ok(command)
}
