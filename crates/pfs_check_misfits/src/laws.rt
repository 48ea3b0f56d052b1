//! Laws of the definitions.

ghost use Rattle.pfs_check_misfits.specs.WrongLines.{WrongLines};

/// The line at which a report's cut stops is one that no report of the script has there: none that is cut, so no run,
/// begins with the lines up to it.
pub fn wrong_lines()
    ensures { WrongLines }
{
    pfs_model::laws::misfits();
    pfs_check_faults::laws::cuts();
}
