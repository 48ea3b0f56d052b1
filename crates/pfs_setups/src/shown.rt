//! The values of a row, compared in place: nothing is copied.

ghost use Rattle.std.specs.Prelude.{◌≡◌, ◌<◌, map};
ghost use Rattle.pfs_containers.specs.PlaceInfos.{thread_info_of};
ghost use Rattle.pfs_exec.specs.Selections.{value_of};
ghost use Rattle.pfs_setups.specs.HeldRows.{actor_values, object_values};
ghost use Rattle.pfs_tables.specs.PlaceTables.{bit_value, class_values, flag_value, thread_values};
ghost use Rattle.pfs_setups.specs.SetupRows.{consumer_values};

use pfs_consumers::{Consumer, Flags};
use pfs_containers::Connection;
use pfs_matching::{ActorRow, ObjectRow};
use pfs_text::Shown;

/// HOST, USER, ROLE, ENABLED and HISTORY.
pub(crate) fn actor_shown(row: &ActorRow) -> [Shown<'_>; 5]
    ensures { map value_of result ≡ actor_values row.now }
{
    [
        Shown::Text(row.host.as_bytes()),
        Shown::Text(row.user.as_bytes()),
        Shown::Text(row.role.as_bytes()),
        flag_shown(row.enabled),
        flag_shown(row.history),
    ]
}

/// OBJECT_TYPE, OBJECT_SCHEMA, OBJECT_NAME, ENABLED and TIMED.
pub(crate) fn object_shown(row: &ObjectRow) -> [Shown<'_>; 5]
    ensures { map value_of result ≡ object_values row.now }
{
    [
        Shown::Text(row.kind.name().as_bytes()),
        Shown::Text(row.schema.as_bytes()),
        Shown::Text(row.name.as_bytes()),
        flag_shown(row.enabled),
        flag_shown(row.timed),
    ]
}

/// NAME and ENABLED of a consumer, by the flags of word 0.
pub(crate) fn consumer_shown(flags: u16, consumer: Consumer) -> [Shown<'static>; 2]
    ensures { map value_of result ≡ consumer_values flags consumer }
{
    [
        Shown::Text(consumer.name().as_bytes()),
        flag_shown(Flags(flags).get(consumer)),
    ]
}

/// NAME, ENABLED and TIMED of a class, by the flags of its word.
pub(crate) fn class_shown(flags: u16, name: &[u8]) -> [Shown<'_>; 3]
    ensures { map value_of result ≡ class_values flags name.now }
{
    [Shown::Text(name), bit_shown(flags, 0), bit_shown(flags, 1)]
}

/// THREAD_ID, PROCESSLIST_USER, PROCESSLIST_HOST, INSTRUMENTED and HISTORY of a session, by the flags of its slot's
/// word.
pub(crate) fn session_shown<'a>(
    session: &Connection,
    flags: u16,
    user: &'a [u8],
    host: &'a [u8],
) -> [Shown<'a>; 5]
    ensures { map value_of result ≡ thread_values (thread_info_of session.now) flags user.now host.now }
{
    [
        Shown::Number(session.number),
        Shown::Text(user),
        Shown::Text(host),
        bit_shown(flags, 0),
        bit_shown(flags, 1),
    ]
}

fn bit_shown(flags: u16, bit: u32) -> Shown<'static>
    requires { bit < 16 }
    ensures { value_of result ≡ bit_value flags bit }
{
    flag_shown((flags >> bit) & 1 == 1)
}

fn flag_shown(flag: bool) -> Shown<'static>
    ensures { value_of result ≡ flag_value flag }
{
    if flag {
        Shown::Text(b"YES")
    } else {
        Shown::Text(b"NO")
    }
}
