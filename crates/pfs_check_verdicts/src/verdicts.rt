//! The sixth rule, asked of one entry after another.

use crate::NoMemory;
use crate::deciding::is_judged;
use crate::flags::PrintedFlags;
use pfs_check_walk::{Spot, Track, Visit};
use pfs_event::Entry;
use pfs_model::Line;

/// Asks of each start whether it names the verdict of the flags that it saw.
#[derive(Drop)]
pub struct JudgingVerdicts {
    pub flags: PrintedFlags,
    /// How many statements of a session may be open.
    pub stack: u64,
}

impl Visit for JudgingVerdicts {
    ghost use Rattle.pfs_check_faults.specs.EntryFaults.{JudgesAt};
    ghost use Rattle.pfs_check_faults.specs.ReportCases.{flags_in, terms_in};
    ghost use Rattle.pfs_check_verdicts.specs.VerdictRules.{KnowsSetup};

    ghost rule = { λ case found earlier place. JudgesAt (terms_in case found).stack (flags_in case found)
        earlier place };

    ghost knows = { λ visitor case found earlier. KnowsSetup case found visitor };

    fn visit<T: Track>(
        &mut self,
        _spot: Spot,
        line: &Line,
        track: &T,
        entry: &Entry,
    ) -> Result<bool, NoMemory> {
        let kept = is_judged(&self.flags, self.stack, track, line, entry);
        Ok(kept)
    }
}
