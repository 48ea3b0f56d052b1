//! The least of the lines at which the parts of the ninth rule fail.

ghost use Rattle.std.specs.Prelude.{◌≡◌};
ghost use Rattle.pfs_check_brought.specs.BroughtRules.{AreDuesJudged};
ghost use Rattle.pfs_check_caused.specs.CauseRules.{AreCausesJudged};
ghost use Rattle.pfs_check_faults.specs.ReportCases.{Case, Findings};
ghost use Rattle.pfs_check_tickets.specs.TicketRules.{AreTicketsJudged};
ghost use Rattle.pfs_check_rings.specs.RingRules.{IsLeast, IsRingsLine, line_of_causes, line_of_dues, line_of_tickets};

use pfs_check_brought::DueRule;
use pfs_check_caused::CauseRule;
use pfs_check_tickets::TicketRule;

fn least(one: Option<u64>, other: Option<u64>) -> Option<u64>
    ensures { IsLeast one other result }
{
    match one {
        Some(first) => match other {
            Some(second) => {
                if second < first {
                    return other;
                }
                one
            }
            None => one,
        },
        None => other,
    }
}

fn line_of_tickets(tickets: TicketRule) -> Option<u64>
    ensures { result ≡ line_of_tickets tickets }
{
    match tickets {
        TicketRule::Kept => None,
        TicketRule::Wrong(line) => Some(line),
    }
}

fn line_of_causes(causes: CauseRule) -> Option<u64>
    ensures { result ≡ line_of_causes causes }
{
    match causes {
        CauseRule::Kept => None,
        CauseRule::Wrong(line) => Some(line),
    }
}

fn line_of_dues(dues: DueRule) -> Option<u64>
    ensures { result ≡ line_of_dues dues }
{
    match dues {
        DueRule::Kept => None,
        DueRule::Wrong(line) => Some(line),
    }
}

/// The first line at which the ninth rule fails, by what is found of its parts; None where it is kept. Each part is
/// told by its first wrong line, counted from 1.
pub(crate) fn rings_line(tickets: TicketRule, causes: CauseRule, dues: DueRule) -> Option<u64>
    ensures { (case : Case) → (found : Findings) → AreTicketsJudged case found tickets
        → AreCausesJudged case found causes → AreDuesJudged case found dues → IsRingsLine case found result }
{
    let entries = least(line_of_tickets(tickets), line_of_causes(causes));
    least(entries, line_of_dues(dues))
}
