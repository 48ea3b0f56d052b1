//! The script and the report of an input.

ghost use Rattle.std.specs.Prelude.{◌≤◌, ◌↔◌, length, IsTrue};
ghost use Rattle.pfs_check_inputs.specs.Inputs.{BeginsReport, IsReportStart, report_word};

// Whether a line begins here, and with the word `pfs-report`.
#[tactic(auto, unfolding(crate::specs::Inputs::report_word))]
fn begins_report(bytes: &[u8], at: usize) -> bool
    requires { at ≤ length bytes.now }
    ensures { IsTrue result ↔ BeginsReport bytes.now at }
{
    if at > 0 && bytes[at - 1] != b'\n' {
        return false;
    }
    bytes[at..].starts_with(b"pfs-report")
}

/// At which byte, counted from 0, the report of an input begins: the script is all before the first line that begins
/// with `pfs-report`. Where no line does, the whole input is the script, and its length is told. The rule is our own.
pub fn report_start(bytes: &[u8]) -> usize
    ensures { IsReportStart bytes.now result }
{
    for at in 0..bytes.len() {
        if begins_report(bytes, at) {
            return at;
        }
    }
    bytes.len()
}
