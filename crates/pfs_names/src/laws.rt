//! What follows from the definitions for all names.
ghost use Rattle.pfs_names.specs.InternedTexts.{InterningAgrees};

/// Interning puts a text at the end exactly where it is new, and a text among names has its first place as its id.
pub fn interning()
    ensures { InterningAgrees }
{}
