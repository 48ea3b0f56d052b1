//! Laws of the definitions.

ghost use Rattle.pfs_law_contexts.specs.TakenSources.{SourceLaw};
ghost use Rattle.pfs_law_contexts.specs.ToldContexts.{ContextLaw, EndLaw};

/// The context of each entry is what the session's last entry before it leaves, where the line goes on; where a line
/// begins, what that leaves once the line before has ended.
pub fn contexts()
    ensures { ContextLaw }
{}

/// What a session's blocks tell of it is what its last entry leaves.
pub fn ends()
    ensures { EndLaw }
{}

/// The source of a gift is what its session took last in the action at hand.
pub fn sources()
    ensures { SourceLaw }
{}
