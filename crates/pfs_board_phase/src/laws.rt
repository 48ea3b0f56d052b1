//! Laws of the definitions.

ghost use Rattle.pfs_board_phase.specs.PhaseLaws.{BeginsLaw, PlayedLaw};

/// The sessions of each phase of any script may play their blocks at once, where a run over a board stands before it.
pub fn begins()
    ensures { BeginsLaw }
{
    pfs_law_script::blocks::playable();
    pfs_law_script::blocks::few();
    pfs_law_script::blocks::actions();
    pfs_law_script::blocks::named();
}

/// Behind them, once the root has read the tables, the run stands before the next phase, with one report more, which a
/// report of the script can have.
pub fn played()
    ensures { PlayedLaw }
{
    pfs_law_script::blocks::playable();
    pfs_law_script::blocks::few();
    pfs_law_script::blocks::actions();
    pfs_law_script::blocks::named();
    pfs_law_phases::laws::next();
    pfs_law_phases::laws::read();
    pfs_law_threads::laws::placed();
    pfs_law_shared::laws::agreed();
    pfs_law_report::report_values::blocks();
    pfs_law_report::report_values::tables();
    pfs_law_report::report_values::names();
    pfs_law_report::report_values::texts();
    pfs_law_report::report_values::table_names();
}
