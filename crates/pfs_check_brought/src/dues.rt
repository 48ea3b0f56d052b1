//! What is due of an event.

ghost use Rattle.std.specs.Prelude.{◌≡◌, []};
ghost use Rattle.pfs_check_brought.specs.KeptDues.{AreSplit, dues_of};

/// One entry that is due.
#[derive(Clone, Copy, Debug, PartialEq, Eq)]
pub enum KeptDue {
    /// An addition to this row, or its event is held for it.
    Adds(u128),
    /// A put to this place of a ring, or it was busy.
    Puts(u128),
    /// A put to the long history of this kind, or its place was busy or had a greater ticket.
    PutsLong(u64),
}

/// What is due behind a start or an end and isn't paid yet. It is paid in the order of the fields.
#[derive(Clone, Copy, Debug, PartialEq, Eq)]
pub struct KeptDues {
    /// The row of its cell.
    pub cell: Option<u128>,
    /// The row of its digest.
    pub digest: Option<u128>,
    /// Its current place.
    pub current: Option<u128>,
    /// Its place in the history.
    pub history: Option<u128>,
    /// Its kind's long history.
    pub long: Option<u64>,
}

/// What is due next, and what then.
#[derive(Clone, Copy, Debug, PartialEq, Eq)]
pub struct FirstDue {
    pub due: KeptDue,
    pub rest: KeptDues,
}

impl KeptDues {
    /// Nothing is due.
    pub(crate) fn none() -> KeptDues
        ensures { dues_of result ≡ [] }
    {
        KeptDues {
            cell: None,
            digest: None,
            current: None,
            history: None,
            long: None,
        }
    }

    /// What is due next; None where nothing is.
    pub(crate) fn split(self) -> Option<FirstDue>
        ensures { AreSplit (dues_of self) result }
    {
        let mut rest = self;
        if let Some(row) = self.cell {
            rest.cell = None;
            let due = KeptDue::Adds(row);
            return Some(FirstDue { due, rest });
        }
        if let Some(row) = self.digest {
            rest.digest = None;
            let due = KeptDue::Adds(row);
            return Some(FirstDue { due, rest });
        }
        if let Some(row) = self.current {
            rest.current = None;
            let due = KeptDue::Puts(row);
            return Some(FirstDue { due, rest });
        }
        if let Some(row) = self.history {
            rest.history = None;
            let due = KeptDue::Puts(row);
            return Some(FirstDue { due, rest });
        }
        let kind = self.long?;
        rest.long = None;
        let due = KeptDue::PutsLong(kind);
        Some(FirstDue { due, rest })
    }
}
