//! What stands above the columns of a table, and which of them show times.

ghost use Rattle.std.specs.Prelude.{◌≡◌, ◌<◌, ◌+◌, ◌++◌, ◌^◌, OnOk};
ghost use Rattle.std.specs.Option.{option_map};
ghost use Rattle.pfs_view.specs.ColumnHeadings.{heading_at, heading_count, heading_text, is_time as spec_is_time, shows_time};

use crate::NoMemory;
use pfs_catalogue::{column_at, column_count};
use pfs_rows::Table;
use pfs_text::put_u64;

/// What the columns of a grid are.
#[derive(Clone, Copy, Debug)]
pub enum Headings {
    /// Those of this table.
    Of(Table),
    /// A counter's name, and how much it counted.
    Counters,
    /// Of no table that is known: each has its number, from 1.
    Numbered,
}

/// How times are shown.
#[derive(Clone, Copy, Debug, PartialEq, Eq)]
pub enum Times {
    /// With a unit, as MySQL's `sys.format_time` gives them.
    Units,
    /// In picoseconds, as they stand in the report.
    Picoseconds,
}

/// Whether a column of this name shows times.
fn is_time(name: &[u8]) -> bool
    ensures { result ≡ spec_is_time name.now }
{
    name.starts_with(b"TIMER_")
        || name.starts_with(b"SUM_TIMER_")
        || name.starts_with(b"MIN_TIMER_")
        || name.starts_with(b"AVG_TIMER_")
        || name.starts_with(b"MAX_TIMER_")
        || name.starts_with(b"LOCK_TIME")
        || name.starts_with(b"SUM_LOCK_TIME")
}

impl Headings {
    /// How many columns have a heading of their own.
    pub(crate) fn count(self) -> u64
        ensures { result ≡ heading_count self }
    {
        match self {
            Headings::Of(table) => column_count(table),
            Headings::Counters => 2,
            Headings::Numbered => 0,
        }
    }

    /// The heading at a place, from 0, where it has one of its own.
    fn at(self, place: u64) -> Option<&'static str>
        ensures { option_map (λ name. name.now) result ≡ heading_at self place }
    {
        match self {
            Headings::Of(table) => column_at(table, place).map(|column| column.name),
            Headings::Counters => match place {
                0 => Some("COUNTER"),
                1 => Some("NUMBER"),
                _ => None,
            },
            Headings::Numbered => None,
        }
    }

    /// Whether the numbers at a place, from 0, are times.
    pub(crate) fn shows_time(self, place: u64) -> bool
        ensures { result ≡ shows_time self place }
    {
        match self.at(place) {
            Some(name) => is_time(name.as_bytes()),
            None => false,
        }
    }

    /// Appends what stands above the column at a place, from 0: its heading, or its number from 1.
    pub fn put(self, out: &mut Vec<u8>, place: u64) -> Result<(), NoMemory>
        requires { place + 1 < 2 ^ 64 }
        ensures { OnOk result (out.new.items ≡ out.old.items ++ heading_text self place) }
    {
        match self.at(place) {
            Some(name) => out.extend_from_slice(name.as_bytes()),
            None => put_u64(out, place + 1),
        }
    }
}
