//! What sessions answered as they ran stands in their journals.

ghost use Rattle.pfs_law_plain.specs.ShownAnswers.{AnsweredLaw};

/// Sessions that run one after another on a plain store: where a SELECT was answered by what its session was told, it
/// is answered by the journals of the whole run. Each reading shows what its row or word holds at the version that the
/// journal names, and what the administration held is the fold of the actions before.
pub fn answered()
    ensures { AnsweredLaw }
{}
