//! What a run reports is such as a report can have.

ghost use Rattle.pfs_law_report.specs.ReportableRuns.{BlocksLaw, NamesLaw, TableNamesLaw, TablesLaw, TextsLaw};

/// The names of any script's setting have only bytes that a report's texts can have.
pub fn names()
    ensures { NamesLaw }
{}

/// The digest texts of any script's setting have only bytes that a report's texts can have.
pub fn texts()
    ensures { TextsLaw }
{}

/// The schemas and the names of the tables of any script's setting have only bytes that a report's texts can have.
pub fn table_names()
    ensures { TableNamesLaw }
{}

/// Where the setting's names and digest texts, and the names of its tables, are such texts, the tables at a phase's end
/// are tables that a report can have.
pub fn tables()
    ensures { TablesLaw }
{}

/// Of sessions whose blocks are what their lines ask for, what their SELECTs answer goes with their journals as a report
/// can have it.
pub fn blocks()
    ensures { BlocksLaw }
{
    pfs_exec::texts::rows_are_of_the_text();
}
