//! Info rows that are written or released, and switch words that are set, over any store that can be held.

ghost use Rattle.std.specs.Prelude.{◌≡◌, ◌<◌, ◌≤◌, ◌+◌, ◌^◌, ◌∷◌, [], ℕ, Option, Some, None, length};
ghost use Rattle.std.specs.Option.{option_map};
ghost use Rattle.pfs_levels.specs.Views.{Used, lent_as};
ghost use Rattle.pfs_levels.specs.Moves.{IsAway, Did, Stays};
ghost use Rattle.pfs_admin.specs.Works.{Signed, Tags, Releases, flagging, flagged, flagging_calls, flagging_entries, word_at};

use pfs_event::Entry;
use pfs_levels::{Content, Hold, Log, Word};

/// Writes an info row. The log gets the tag.
pub(crate) fn tag<H: Hold>(rows: &mut H, row: u64, content: &Content, log: &mut Log)
    requires away { IsAway (H.seen rows.old).hand row }
    requires spare { 1 ≤ (H.seen rows.old).left }
    requires room { 1 ≤ log.old.room }
    ensures signed { Signed (Tags row content.now ∷ []) log.old log.new (H.seen rows.old).reached
        (H.seen rows.new).reached }
    ensures stays { Stays 1 (H.seen rows.old) (H.seen rows.new) log.old log.new }
{
    rows.take(row);
    let version = rows.put(row, content);
    log.push(Entry::Tag { row, version });
}

/// Releases an info row. The log gets the release.
pub(crate) fn release<H: Hold>(rows: &mut H, row: u64, log: &mut Log)
    requires away { IsAway (H.seen rows.old).hand row }
    requires spare { 1 ≤ (H.seen rows.old).left }
    requires room { 1 ≤ log.old.room }
    ensures signed { Signed (Releases row ∷ []) log.old log.new (H.seen rows.old).reached (H.seen rows.new).reached }
    ensures stays { Stays 1 (H.seen rows.old) (H.seen rows.new) log.old log.new }
{
    let (version, _) = rows.take(row);
    rows.free(row);
    log.push(Entry::Free { row, version });
}

/// Sets a switch word where its flags change. The log gets the set.
pub(crate) fn flag<H: Hold>(rows: &mut H, words: &mut [Word], at: u64, flags: u16, log: &mut Log)
    requires known { at < 160 }
    requires wide { length words.old ≡ 160 }
    requires lent { (H.seen rows.old).words ≡ Some words.old }
    requires early { (word_at words.old at).version + 1 < 2 ^ 48 }
    requires room { 1 ≤ log.old.room }
    ensures did { Did (flagging_calls words.old (flagging words.old at flags))
        (flagging_entries words.old (flagging words.old at flags)) log.old log.new (H.seen rows.old).reached
        (H.seen rows.new).reached }
    ensures mine { words.new ≡ flagged words.old at flags }
    ensures used { Used 0 0 1 (lent_as words.new (H.seen rows.old)) (H.seen rows.new) log.old log.new }
{
    let here = words[at as usize];
    if here.flags == flags {
        return;
    }
    let version = rows.set(at, flags);
    words[at as usize] = Word { version, flags };
    log.push(Entry::Set {
        word: at,
        version,
        flags: u64::from(flags),
    });
}
