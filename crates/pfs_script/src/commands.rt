//! What kind of SQL command a text is, as far as its weight goes.

ghost use Rattle.std.specs.Prelude.{◌≡◌, ◌≤◌, position, codes};
ghost use Rattle.pfs_script.specs.CommandFronts.{is_solid, command_of, begins_with};
ghost use Rattle.pfs_script.specs.Reasons.{sql_weight};

fn first_solid(text: &[u8]) -> Option<usize>
    ensures { result ≡ position is_solid text.now }
{
    text.iter().position(|byte| *byte != b' ' && *byte != b'\t')
}

/// The command behind the spaces and tabs before it.
#[tactic(auto, unfolding(crate::specs::CommandFronts::command_of))]
fn command(text: &[u8]) -> &[u8]
    ensures { result.now ≡ command_of text.now }
{
    match first_solid(text) {
        Some(at) => &text[at..],
        None => b"",
    }
}

/// Whether the command begins with these letters, in any case.
#[tactic(auto, unfolding(crate::specs::CommandFronts::begins_with))]
fn begins_with(letters: &[u8], text: &[u8]) -> bool
    ensures { result ≡ begins_with letters.now text.now }
{
    let command = command(text);
    letters.len() <= command.len() && command[..letters.len()].eq_ignore_ascii_case(letters)
}

/// Whether the command is a SELECT.
pub fn is_select(text: &[u8]) -> bool
    ensures { result ≡ begins_with (codes "select") text.now }
{
    begins_with(b"select", text)
}

/// What the command weighs.
pub fn sql_weight(text: &[u8]) -> u64
    ensures value { result ≡ sql_weight text.now }
    ensures low { result ≤ 20000 }
{
    if is_select(text) {
        10_000
    } else if begins_with(b"truncate", text) {
        20_000
    } else {
        300
    }
}
