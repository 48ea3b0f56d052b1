//! Laws of the definitions.

ghost use Rattle.pfs_board_admin.specs.DeskLaws.{StepLaw, NumberLaw, NeverSpentLaw, SharedLaw, BegunLaw, WorkLaw, LeftLaw};

/// A desk that stands for a list of labels stands for that list and one label more once its administration followed
/// with that label's change, as each of its calls says, and its writer knows the words as the administration has them.
pub fn one_label_more()
    ensures { StepLaw }
{}

/// The next action's number is one above the count of the administration's actions.
pub fn the_next_number()
    ensures { NumberLaw }
{}

/// No word is at its last version before 2^47 actions, so no set is refused.
pub fn never_spent()
    ensures { NeverSpentLaw }
{}

/// Two of the premises of the laws `joint` and `ordered` of `pfs_board_store`, where the board keeps a desk: that the
/// writer's sets are the actors', each once, and that no actor met or left a word below what the actions set that it
/// knew as ended. Each actor kept to the words of its labels: a meet in an action shows the words of the labels that
/// the action found, with its own sets, and as it ends they are those of these labels and its own.
pub fn shared()
    ensures { SharedLaw }
{}

/// An actor keeps to the words of its labels from the beginning of an action, as `enter` and a hold that is lent the
/// writer tell it, over its work, as an administration's calls tell theirs, to the end, as `leave` asks for it.
pub fn keeping()
    ensures begun { BegunLaw }
    ensures work { WorkLaw }
    ensures left { LeftLaw }
{}
