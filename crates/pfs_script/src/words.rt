//! The words of a line, and the names, numbers and switches among them.

ghost use Rattle.std.specs.Prelude.{◌≡◌, ◌==◌, length, position, option_map, codes, true, IfSome};
ghost use Rattle.std.specs.List.{list_all};
ghost use Rattle.std.specs.Str.{bytes_eq};
ghost use Rattle.pfs_script.specs.ScriptWords.{is_script_byte, is_name_byte, is_table_byte, is_name, is_table_name, is_space, is_dot, is_word, word_of, rest_of, schema_of, table_of, switch_of, switches_of};

/// Whether a class or the classes of a pattern are enabled, and whether they are timed.
#[derive(Clone, Copy, Debug, PartialEq, Eq)]
pub struct Switches {
    pub enabled: bool,
    pub timed: bool,
}

/// Whether a script may have this byte: a tab, or one of the printable ones.
fn is_script_byte(byte: u8) -> bool
    ensures { result ≡ is_script_byte byte }
{
    byte == b'\t' || (byte >= 32 && byte <= 126)
}

/// Whether a script may have all these bytes.
pub fn is_clean(bytes: &[u8]) -> bool
    ensures { result ≡ list_all is_script_byte bytes.now }
{
    bytes.iter().all(|byte| is_script_byte(*byte))
}

/// Whether there is a byte at all.
#[tactic(auto, unfolding(crate::specs::ScriptWords::is_word))]
pub fn is_word(bytes: &[u8]) -> bool
    ensures { result ≡ is_word bytes.now }
{
    bytes.len() > 0
}

/// Whether a user's or a host's name may have this byte.
fn is_name_byte(byte: u8) -> bool
    ensures { result ≡ is_name_byte byte }
{
    byte.is_ascii_alphanumeric() || byte == b'_' || byte == b'.' || byte == b'-'
}

/// Whether these bytes are such a name, of at most so many bytes.
#[tactic(auto, unfolding(crate::specs::ScriptWords::is_name))]
pub fn is_name(most: usize, bytes: &[u8]) -> bool
    ensures { result ≡ is_name most bytes.now }
{
    bytes.len() > 0 && bytes.len() <= most && all_name_bytes(bytes)
}

fn all_name_bytes(bytes: &[u8]) -> bool
    ensures { result ≡ list_all is_name_byte bytes.now }
{
    bytes.iter().all(|byte| is_name_byte(*byte))
}

/// Whether a schema's or a table's name may have this byte.
fn is_table_byte(byte: u8) -> bool
    ensures { result ≡ is_table_byte byte }
{
    byte.is_ascii_alphanumeric() || byte == b'_' || byte == b'$'
}

/// Whether these bytes are such a name, of at most 64 bytes.
#[tactic(auto, unfolding(crate::specs::ScriptWords::is_table_name))]
pub fn is_table_name(bytes: &[u8]) -> bool
    ensures { result ≡ is_table_name bytes.now }
{
    bytes.len() > 0 && bytes.len() <= 64 && all_table_bytes(bytes)
}

fn all_table_bytes(bytes: &[u8]) -> bool
    ensures { result ≡ list_all is_table_byte bytes.now }
{
    bytes.iter().all(|byte| is_table_byte(*byte))
}

fn first_space(bytes: &[u8]) -> Option<usize>
    ensures { result ≡ position is_space bytes.now }
{
    bytes.iter().position(|byte| *byte == b' ')
}

fn first_dot(bytes: &[u8]) -> Option<usize>
    ensures { result ≡ position is_dot bytes.now }
{
    bytes.iter().position(|byte| *byte == b'.')
}

/// The first word, and what stands behind the first space; None where there is no space.
#[tactic(auto, unfolding(crate::specs::ScriptWords::word_of, crate::specs::ScriptWords::rest_of))]
pub fn split_word(bytes: &[u8]) -> (&[u8], Option<&[u8]>)
    ensures word { result.0.now ≡ word_of bytes.now }
    ensures rest { option_map (λ rest. rest.now) result.1 ≡ rest_of bytes.now }
    ensures clean { list_all is_script_byte bytes.now ≡ true
        → IfSome result.1 (λ rest. list_all is_script_byte rest.now ≡ true) }
{
    match first_space(bytes) {
        Some(at) => (&bytes[..at], Some(&bytes[at + 1..])),
        None => (bytes, None),
    }
}

/// The schema, which stands before the first dot, and the name behind it; None where there is no dot.
#[tactic(auto, unfolding(crate::specs::ScriptWords::schema_of, crate::specs::ScriptWords::table_of))]
pub fn split_table(bytes: &[u8]) -> (&[u8], Option<&[u8]>)
    ensures schema { result.0.now ≡ schema_of bytes.now }
    ensures name { option_map (λ name. name.now) result.1 ≡ table_of bytes.now }
{
    match first_dot(bytes) {
        Some(at) => (&bytes[..at], Some(&bytes[at + 1..])),
        None => (bytes, None),
    }
}

/// Whether the bytes are this text.
pub fn is_text(bytes: &[u8], text: &[u8]) -> bool
    ensures { result ≡ bytes_eq bytes.now text.now }
{
    bytes == text
}

/// The switch that a word is: `YES` or `NO`.
#[tactic(auto, unfolding(crate::specs::ScriptWords::switch_of))]
pub fn parse_switch(word: &[u8]) -> Option<bool>
    ensures { result ≡ switch_of word.now }
{
    if is_text(word, b"YES") {
        Some(true)
    } else if is_text(word, b"NO") {
        Some(false)
    } else {
        None
    }
}

/// The two switches that the words are.
#[tactic(auto, unfolding(crate::specs::ScriptWords::switches_of))]
pub fn parse_switches(words: &[u8]) -> Option<Switches>
    ensures { result ≡ switches_of words.now }
{
    let (enabled, timed) = split_word(words);
    let enabled = parse_switch(enabled)?;
    let timed = parse_switch(timed?)?;
    Some(Switches { enabled, timed })
}
