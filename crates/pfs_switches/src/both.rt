//! A seat and the writer in one, while they meet.
ghost use Rattle.std.specs.Prelude.{◌≡◌, ℕ, ◌/◌, ◌%◌, ◌∷◌, ◌<◌, true, [], length, slice_index};
ghost use Rattle.pfs_switches.specs.SharedKnowledge.{IsTold};
ghost use Rattle.pfs_switches.specs.History.{flags_at};
ghost use Rattle.pfs_switches.specs.Knowledge.{gathered, loaded, met, reader, writer};
ghost use Rattle.pfs_switches.specs.SeatViews.{IsReady, IsWriting, first_view};

use crate::rules::{Check, Gather, Part, Rules, Tell};
use crate::view::View;
use atomic_table::{Badge, Seat, Shared};

pub(crate) type Top = Shared<(), View, Vec<u64>, Rules>;

pub(crate) type Both = Seat<(), View>;

fn gather(top: &Top, badge: Badge<View>, pen: Badge<View>) -> Both
    requires tables { (badge.table_id ≡ top.now.table_id) × (pen.table_id ≡ top.now.table_id)
        × (0 < top.now.table_id.words) }
    requires seat { IsReady badge.table_id badge.views }
    requires writer { IsWriting pen.table_id pen.views }
    ensures table { result.table_id ≡ top.now.table_id }
    ensures both { result.me ≡ (gathered (first_view badge.views) (first_view pen.views), []) }
{
    let mut both = badge.into_seat::<()>();
    top.join_seat::<Gather>(&mut both, pen.into_seat::<()>());
    both
}

fn part(top: &Top, mut both: Both) -> (Badge<View>, Badge<View>)
    requires table { (both.table_id ≡ top.now.table_id) × (0 < top.now.table_id.words) × (both.me.1 ≡ []) }
    requires both { (both.me.0.live ≡ true) × (both.me.0.writes ≡ true) }
    ensures tables { (result.0.table_id ≡ top.now.table_id) × (result.1.table_id ≡ top.now.table_id) }
    ensures seat { result.0.views ≡ reader both.me.0 ∷ [] }
    ensures writer { result.1.views ≡ writer both.me.0 ∷ [] }
{
    let pen = top.split_seat::<Part>(&mut both);
    (both.into_badge(), pen.into_badge())
}

/// The two meet, and learn what holds of all that they know.
pub(crate) fn meet_by(top: &Top, badge: Badge<View>, pen: Badge<View>) -> (Badge<View>, Badge<View>)
    requires tables { (badge.table_id ≡ top.now.table_id) × (pen.table_id ≡ top.now.table_id)
        × (0 < top.now.table_id.words) }
    requires seat { IsReady badge.table_id badge.views }
    requires writer { IsWriting pen.table_id pen.views }
    ensures tables { (result.0.table_id ≡ top.now.table_id) × (result.1.table_id ≡ top.now.table_id) }
    ensures seat { result.0.views ≡ met (first_view badge.views) (first_view pen.views) ∷ [] }
    ensures writer { result.1.views ≡ first_view pen.views ∷ [] }
    ensures told { IsTold (first_view badge.views).start (met (first_view badge.views) (first_view pen.views))
        (first_view pen.views) }
{
    let mut both = gather(top, badge, pen);
    top.load::<Tell>(&mut both, 0);
    part(top, both)
}

/// The two meet and load a word, whose version and flags the writer knows. It answers what was found.
pub(crate) fn load_by(
    top: &Top,
    badge: Badge<View>,
    pen: Badge<View>,
    word: usize,
) -> (u64, Badge<View>, Badge<View>)
    requires tables { (badge.table_id ≡ top.now.table_id) × (pen.table_id ≡ top.now.table_id) }
    requires seat { IsReady badge.table_id badge.views }
    requires writer { IsWriting pen.table_id pen.views }
    requires word { (word < top.now.table_id.words) × (top.now.table_id.words ≡ length top.now.key.items) }
    ensures tables { (result.1.table_id ≡ top.now.table_id) × (result.2.table_id ≡ top.now.table_id) }
    ensures found { (result.0 / 65536 ≡ slice_index (first_view pen.views).seen word)
        × (result.0 % 65536 ≡ flags_at (first_view badge.views).start (first_view pen.views).sets word
        (result.0 / 65536)) }
    ensures seat { result.1.views ≡ loaded (met (first_view badge.views) (first_view pen.views)) word
        (result.0 / 65536) (result.0 % 65536) ∷ [] }
    ensures writer { result.2.views ≡ first_view pen.views ∷ [] }
    ensures told { IsTold (first_view badge.views).start
        (loaded (met (first_view badge.views) (first_view pen.views)) word (result.0 / 65536) (result.0 % 65536))
        (first_view pen.views) }
{
    let mut both = gather(top, badge, pen);
    let found = top.load::<Check>(&mut both, word);
    let (sitting, writing) = part(top, both);
    (found, sitting, writing)
}
