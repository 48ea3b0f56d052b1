//! The kinds of classes, and the kind that a class's name has.

ghost use Rattle.std.specs.Prelude.{◌≡◌, ◌==◌, ◌++◌, ◌∷◌, IsTrue, ◌↔◌, MatchOption, IfSome, List, ℕ};
ghost use Rattle.std.specs.List.{list_all};
ghost use Rattle.pfs_classes.specs.declared.kind.Kind.{Kind};
ghost use Rattle.pfs_classes.specs.Kinds.{kind_name, room_of, is_fixed, is_part_byte, is_part, are_parts, Fits, kind_of};

use pfs_rows::Limits;

// The most bytes of a class's name.
const MOST_BYTES: usize = 128;

/// A kind of classes. The first seven are waits.
#[derive(Clone, Copy, Debug, PartialEq, Eq)]
pub enum Kind {
    Mutex,
    Rwlock,
    Cond,
    File,
    Socket,
    TableIo,
    TableLock,
    Stage,
    Statement,
    Transaction,
}

impl Kind {
    /// All kinds, in their order.
    pub const ALL: [Kind; 10] = [
        Kind::Mutex,
        Kind::Rwlock,
        Kind::Cond,
        Kind::File,
        Kind::Socket,
        Kind::TableIo,
        Kind::TableLock,
        Kind::Stage,
        Kind::Statement,
        Kind::Transaction,
    ];

    /// The kind's name, MySQL's own, which the names of its classes begin with.
    pub fn name(self) -> &'static str
        ensures { result.now ≡ kind_name self }
    {
        match self {
            Kind::Mutex => "wait/synch/mutex",
            Kind::Rwlock => "wait/synch/rwlock",
            Kind::Cond => "wait/synch/cond",
            Kind::File => "wait/io/file",
            Kind::Socket => "wait/io/socket",
            Kind::TableIo => "wait/io/table",
            Kind::TableLock => "wait/lock/table",
            Kind::Stage => "stage",
            Kind::Statement => "statement",
            Kind::Transaction => "transaction",
        }
    }

    /// How many classes of the kind there may be beside `transaction`: the kind's limit, and one
    /// for each kind of table waits.
    pub fn room(self, limits: &Limits) -> u64
        ensures { result ≡ room_of limits.now self }
    {
        match self {
            Kind::Mutex => limits.mutex_classes,
            Kind::Rwlock => limits.rwlock_classes,
            Kind::Cond => limits.cond_classes,
            Kind::File => limits.file_classes,
            Kind::Socket => limits.socket_classes,
            Kind::TableIo | Kind::TableLock => 1,
            Kind::Stage => limits.stage_classes,
            Kind::Statement => limits.statement_classes,
            Kind::Transaction => 0,
        }
    }

    /// Whether the kind has its built-in classes alone, so that none may be registered: the two
    /// kinds of table waits, and transactions.
    pub fn is_fixed(self) -> bool
        ensures { result ≡ is_fixed self }
    {
        matches!(self, Kind::TableIo | Kind::TableLock | Kind::Transaction)
    }

    /// The kind of a class of that name, or none where the name breaks the rule of class names:
    /// a kind's name, `/`, and one or more parts joined by `/`, at most 128 bytes in all. A part
    /// has one or more letters, digits, `_`, `:`, `.` and `-`. `transaction` alone is the class
    /// of its kind; the bare name of any other kind is no class's.
    pub fn of_name(name: &[u8]) -> Option<Kind>
        ensures kind { MatchOption result ((kind : Kind) → ¬ Fits name.now kind) (λ kind. Fits name.now kind) }
        ensures only { IfSome result (λ kind. (other : Kind) → Fits name.now other → other ≡ kind) }
        ensures value { result ≡ kind_of name.now }
    {
        find_kind(name)
    }
}

// What the name's kind is, by its cases.
fn find_kind(name: &[u8]) -> Option<Kind>
    ensures kind { MatchOption result ((kind : Kind) → ¬ Fits name.now kind) (λ kind. Fits name.now kind) }
    ensures only { IfSome result (λ kind. (other : Kind) → Fits name.now other → other ≡ kind) }
{
    if name == Kind::Transaction.name().as_bytes() {
        return Some(Kind::Transaction);
    }
    if name.len() > MOST_BYTES {
        return None;
    }
    for kind in Kind::ALL {
        if is_below(name, kind) {
            return Some(kind);
        }
    }
    None
}

// Whether the name is the kind's, `/` and parts.
fn is_below(name: &[u8], kind: Kind) -> bool
    ensures { IsTrue result
        ↔ ((parts : List ℕ) × (name.now ≡ kind_name kind ++ 47 ∷ parts) × IsTrue (are_parts parts)) }
{
    match name.strip_prefix(kind.name().as_bytes()) {
        Some(rest) => are_after_slash(rest),
        None => false,
    }
}

// Whether the text is `/` and parts.
fn are_after_slash(text: &[u8]) -> bool
    ensures { IsTrue result ↔ ((parts : List ℕ) × (text.now ≡ 47 ∷ parts) × IsTrue (are_parts parts)) }
{
    match text.split_first() {
        Some((first, parts)) => *first == b'/' && are_parts(parts),
        None => false,
    }
}

// Whether the text is one or more parts joined by `/`.
fn are_parts(text: &[u8]) -> bool
    ensures { result ≡ are_parts text.now }
{
    text.split(|b| *b == b'/').all(|part| is_part(part))
}

fn is_part(part: &[u8]) -> bool
    ensures { result ≡ is_part part.now }
{
    !part.is_empty() && are_part_bytes(part)
}

fn are_part_bytes(part: &[u8]) -> bool
    ensures { result ≡ list_all is_part_byte part.now }
{
    part.iter().all(|b| is_part_byte(*b))
}

fn is_part_byte(b: u8) -> bool
    ensures { result ≡ is_part_byte b }
{
    matches!(b, b'a'..=b'z' | b'A'..=b'Z' | b'0'..=b'9' | b'_' | b':' | b'.' | b'-')
}
