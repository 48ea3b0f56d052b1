//! The rows of the board and the places that they are.

ghost use Rattle.std.specs.Prelude.{◌≡◌, ◌<◌, ◌≤◌, ◌/◌, ◌%◌, MatchOption};
ghost use Rattle.pfs_rows.specs.Rows.{IsPlace, row_number, place_at};

/// How many rows the board has.
pub const ROWS: u64 = 14_242;

/// The row of the administration.
const ADMIN: u64 = 0;

/// The first of the infos, which stand by kind: threads, accounts, users, hosts.
const THREAD_INFOS: u64 = 1;

const ACCOUNT_INFOS: u64 = 33;

const USER_INFOS: u64 = 65;

const HOST_INFOS: u64 = 97;

/// The first of the cells, which stand by level: threads, accounts, users, hosts, global ones.
pub const THREAD_CELLS: u64 = 129;

const ACCOUNT_CELLS: u64 = 2_177;

const USER_CELLS: u64 = 4_225;

const HOST_CELLS: u64 = 6_273;

const GLOBAL_CELLS: u64 = 8_321;

/// The row of the digests without a place.
pub const DIGEST_NULL: u64 = 8_385;

/// The first of the rows of the digests with a place.
const DIGESTS: u64 = 8_386;

/// The first of the ring places, which stand by thread.
pub const RINGS: u64 = 8_450;

/// The first of the long history's rows, which stand by kind.
pub const LONG_HISTORY: u64 = 10_242;

/// How many cells a level's place has: one for each class, the last two for transactions.
pub const CELLS: u64 = 64;

/// The cell in which READ WRITE transactions count: that of their class.
pub const READ_WRITE_CELL: u64 = 62;

/// The cell in which READ ONLY transactions count.
pub const READ_ONLY_CELL: u64 = 63;

/// How many ring places a thread has: its current ones, then those of history for each kind.
pub const RING_PLACES: u64 = 56;

/// How many current places a thread has.
pub const CURRENT_PLACES: u64 = 16;

/// How many places a thread's history of a kind has. The number is our own; MySQL's is set by an option, at first 10.
pub const HISTORY_PLACES: u64 = 10;

/// How many places a kind's long history has. The number is our own; MySQL's is set by an option, at first 10,000.
pub const LONG_PLACES: u64 = 1_000;

/// How many switch words there are: for each thread, class and consumer its flags.
pub const WORDS: u64 = 160;

/// A place of the board, in the order of the rows.
#[derive(Clone, Copy, Debug, PartialEq, Eq)]
pub enum Place {
    Admin,
    ThreadInfo(u64),
    AccountInfo(u64),
    UserInfo(u64),
    HostInfo(u64),
    ThreadCell { thread: u64, cell: u64 },
    AccountCell { account: u64, cell: u64 },
    UserCell { user: u64, cell: u64 },
    HostCell { host: u64, cell: u64 },
    GlobalCell(u64),
    DigestNull,
    Digest(u64),
    Ring { thread: u64, place: u64 },
    Long { kind: u64, place: u64 },
}

/// The row of a place. Threads, accounts, users and hosts go from 0 to 31, cells from 0 to 63,
/// digests from 0 to 63, ring places from 0 to 55, kinds from 0 to 3, long places from 0 to 999.
pub fn row_of(place: Place) -> u64
    requires { IsPlace place }
    ensures number { result ≡ row_number place }
    ensures below { result < 14242 }
{
    match place {
        Place::Admin => ADMIN,
        Place::ThreadInfo(thread) => THREAD_INFOS + thread,
        Place::AccountInfo(account) => ACCOUNT_INFOS + account,
        Place::UserInfo(user) => USER_INFOS + user,
        Place::HostInfo(host) => HOST_INFOS + host,
        Place::ThreadCell { thread, cell } => THREAD_CELLS + CELLS * thread + cell,
        Place::AccountCell { account, cell } => ACCOUNT_CELLS + CELLS * account + cell,
        Place::UserCell { user, cell } => USER_CELLS + CELLS * user + cell,
        Place::HostCell { host, cell } => HOST_CELLS + CELLS * host + cell,
        Place::GlobalCell(cell) => GLOBAL_CELLS + cell,
        Place::DigestNull => DIGEST_NULL,
        Place::Digest(digest) => DIGESTS + digest,
        Place::Ring { thread, place } => RINGS + RING_PLACES * thread + place,
        Place::Long { kind, place } => LONG_HISTORY + LONG_PLACES * kind + place,
    }
}

/// The place of a row; none exactly from row 14,242 on.
#[inline(always)]
pub fn place_of(row: u64) -> Option<Place>
    ensures value { result ≡ place_at row }
    ensures place { MatchOption result (14242 ≤ row) (λ p. IsPlace p × (row_number p ≡ row)) }
{
    let place = match row {
        ADMIN => Place::Admin,
        THREAD_INFOS..ACCOUNT_INFOS => Place::ThreadInfo(row - THREAD_INFOS),
        ACCOUNT_INFOS..USER_INFOS => Place::AccountInfo(row - ACCOUNT_INFOS),
        USER_INFOS..HOST_INFOS => Place::UserInfo(row - USER_INFOS),
        HOST_INFOS..THREAD_CELLS => Place::HostInfo(row - HOST_INFOS),
        THREAD_CELLS..ACCOUNT_CELLS => {
            let (thread, cell) = split(row - THREAD_CELLS, CELLS);
            Place::ThreadCell { thread, cell }
        }
        ACCOUNT_CELLS..USER_CELLS => {
            let (account, cell) = split(row - ACCOUNT_CELLS, CELLS);
            Place::AccountCell { account, cell }
        }
        USER_CELLS..HOST_CELLS => {
            let (user, cell) = split(row - USER_CELLS, CELLS);
            Place::UserCell { user, cell }
        }
        HOST_CELLS..GLOBAL_CELLS => {
            let (host, cell) = split(row - HOST_CELLS, CELLS);
            Place::HostCell { host, cell }
        }
        GLOBAL_CELLS..DIGEST_NULL => Place::GlobalCell(row - GLOBAL_CELLS),
        DIGEST_NULL => Place::DigestNull,
        DIGESTS..RINGS => Place::Digest(row - DIGESTS),
        RINGS..LONG_HISTORY => {
            let (thread, place) = split(row - RINGS, RING_PLACES);
            Place::Ring { thread, place }
        }
        LONG_HISTORY..ROWS => {
            let (kind, place) = split(row - LONG_HISTORY, LONG_PLACES);
            Place::Long { kind, place }
        }
        _ => return None,
    };
    Some(place)
}

// Which group of so many, and which of its members.
fn split(at: u64, width: u64) -> (u64, u64)
    requires { 0 < width }
    ensures group { result.0 ≡ at / width }
    ensures member { result.1 ≡ at % width }
{
    (at / width, at % width)
}
