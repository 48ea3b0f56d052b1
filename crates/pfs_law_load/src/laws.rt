//! What a load shows doesn't go by the order in which its sessions came.

ghost use Rattle.pfs_law_load.specs.LoadExamples.{WorkedLoad};
ghost use Rattle.pfs_law_load.specs.LoadPhases.{GeneratedLaw};
ghost use Rattle.pfs_law_load.specs.OneText.{OneTextLaw};

/// The script of each number has two phases: in the first nothing but connects, each of which finds a slot, an account,
/// a user and a host; in the second no session connects, quits or acts by SQL.
pub fn generated_phases()
    ensures { GeneratedLaw }
{}

/// Of any two runs of the script of a number, in whatever orders their sessions came, a load shows the same text.
pub fn one_text()
    ensures { OneTextLaw }
{
    generated_phases();
    pfs_script::laws::exact();
    pfs_law_agreed::laws::second_phase();
    pfs_law_agreed::laws::same_rows();
}

/// What is shown of reports, and what isn't; and scripts of two phases that the law is for, and others that it isn't
/// for.
pub fn worked()
    ensures { WorkedLoad }
{}
