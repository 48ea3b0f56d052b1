//! The first deed that falls.

ghost use Rattle.std.specs.Prelude.{◌≡◌, IfOk};
ghost use Rattle.pfs_check_falls.specs.DeedOrder.{AreInOrder, alike_test, floor_behind, floor_next, level_of, with_fall};
ghost use Rattle.pfs_check_falls.specs.FallenDeeds.{IsFallFound, deed_of};

use crate::NoMemory;

/// What an action did to a row or to a switch word, and where it stands.
#[derive(Clone, Copy, Debug, PartialEq, Eq, PartialOrd, Ord)]
pub struct PlacedDeed {
    /// The number of the row, or of the word.
    pub row: u64,
    pub version: u64,
    /// Whether the row is released at the version, or changed to it.
    pub releases: bool,
    /// The number of the action.
    pub action: u64,
    /// The place of its entry in the report, or its line.
    pub place: u64,
}

// Where it stands along its row: a version's change stands before its release.
fn level_of(deed: PlacedDeed) -> u128
    ensures { result ≡ level_of (deed_of deed) }
{
    let twice = 2 * u128::from(deed.version);
    if deed.releases { twice + 1 } else { twice }
}

// Of two deeds of a row in their order: neither stands before the other.
fn are_alike(last: PlacedDeed, next: PlacedDeed) -> bool
    ensures { result ≡ alike_test (deed_of last) (deed_of next) }
{
    level_of(last) == level_of(next) && (!last.releases || last.action == next.action)
}

// What stands right before the next one in its row, by what stood right before the last one, if there was one.
fn floor_behind(
    floor: Option<PlacedDeed>,
    last: Option<PlacedDeed>,
    next: PlacedDeed,
) -> Option<PlacedDeed>
    ensures { result ≡ floor_behind floor last next }
{
    match last {
        Some(last) => floor_next(floor, last, next),
        None => None,
    }
}

fn floor_next(floor: Option<PlacedDeed>, last: PlacedDeed, next: PlacedDeed) -> Option<PlacedDeed>
    ensures { result ≡ floor_next floor last next }
{
    if last.row == next.row {
        if are_alike(last, next) {
            floor
        } else {
            Some(last)
        }
    } else {
        None
    }
}

// The lesser of the places so far, where the next deed falls.
fn with_fall(least: Option<u64>, floor: Option<PlacedDeed>, next: PlacedDeed) -> Option<u64>
    ensures { result ≡ with_fall least floor next }
{
    match floor {
        Some(high) => {
            if next.action < high.action {
                match least {
                    Some(place) => Some(place.min(next.place)),
                    None => Some(next.place),
                }
            } else {
                least
            }
        }
        None => least,
    }
}

// Of deeds in their order, the least place of one that falls.
fn least_fall(deeds: &[PlacedDeed]) -> Option<u64>
    requires { AreInOrder deeds.now }
    ensures { IsFallFound deeds.now result }
{
    let mut least = None;
    let mut floor = None;
    let mut last = None;
    for next in deeds {
        floor = floor_behind(floor, last, *next);
        least = with_fall(least, floor, *next);
        last = Some(*next);
    }
    least
}

/// The least place of a deed that is by an action of a lower number than what stands right before it in its row; None
/// where the numbers never fall. They may be given in whatever order. Err where memory runs out.
pub fn first_fall(deeds: Vec<PlacedDeed>) -> Result<Option<u64>, NoMemory>
    ensures { IfOk result (IsFallFound deeds.items) }
{
    let mut sorted = deeds;
    sorted.sort()?;
    Ok(least_fall(sorted.as_slice()))
}
