//! What holds of the changes of a script.

ghost use Rattle.pfs_check_named.specs.NamedChanges.{NamedChangesLaw};

/// What any label changes of a script, where it connects a session, gives names of the script's setting: what `replay`
/// of `pfs_check_orders` asks.
pub fn named_changes()
    ensures { NamedChangesLaw }
{
    pfs_law_script::blocks::named();
}
