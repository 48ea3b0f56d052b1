//! The seventh rule, asked of one entry after another.

ghost use Rattle.std.specs.Prelude.{◌≡◌, ◌&&◌};

use crate::NoMemory;
use crate::answers::is_answered;
use pfs_check_orders::Orders;
use pfs_check_walk::{EventNumbers, Spot, Track, Visit};
use pfs_event::Entry;
use pfs_model::Line;

/// Asks of each entry whether its event's numbers are the next ones, its connect's places those that its action finds,
/// and its answer that of its line.
#[derive(Drop)]
pub(crate) struct Numbering {
    pub orders: Orders,
}

fn both(one: bool, other: bool) -> bool
    ensures { result ≡ (one && other) }
{
    one && other
}

impl Visit for Numbering {
    ghost use Rattle.pfs_check_faults.specs.EntryFaults.{NumbersAt};
    ghost use Rattle.pfs_check_faults.specs.ReportCases.{terms_in};
    ghost use Rattle.pfs_check_numbers.specs.OrderAnswers.{AreOrdersOf};

    ghost rule = { λ case found earlier place. NumbersAt (terms_in case found).rooms (terms_in case found).answers
        earlier place };

    ghost knows = { λ visitor case found earlier. AreOrdersOf case found visitor.orders };

    fn visit<T: Track>(
        &mut self,
        spot: Spot,
        line: &Line,
        track: &T,
        entry: &Entry,
    ) -> Result<bool, NoMemory> {
        pfs_check_orders::laws::terms();
        let mut numbers = EventNumbers;
        let numbered = numbers.visit(spot, line, track, entry)?;
        let action = track.action();
        let answered = is_answered(self.orders.orders.as_slice(), line, action, entry);
        let kept = both(numbered, answered);
        Ok(kept)
    }
}
