//! Laws of the definitions.

ghost use Rattle.pfs_admin.specs.Examples.{WorkedFold};
ghost use Rattle.pfs_admin.specs.TruncationExamples.{WorkedTruncations};
ghost use Rattle.pfs_admin.specs.FoldLaws.{StepLaw, CountLaw, FixedLaw, NoRowLaw, ConnectRows, EachWordLaw, QuitRows};

/// An administration that stands for a list of labels stands for that list and one label more once the step of that
/// label's session and change was made.
pub fn one_label_more()
    ensures { StepLaw }
{}

/// An administration that stands for labels has made as many actions as there are labels, and has set no word more
/// often.
pub fn actions_are_counted()
    ensures { CountLaw }
{}

/// No action changes the names or the cells of the classes, all or by their kinds.
pub fn names_and_cells_stay()
    ensures { FixedLaw }
{}

/// The info rows that a connect writes ascend, and none comes twice.
pub fn rows_of_a_connect_ascend()
    ensures { ConnectRows }
{}

/// The rows that a quit empties ascend, and none comes twice; so do the rows that it releases and writes: its info rows,
/// which lie below those that it empties, and behind them the places of its ring, which lie above.
pub fn rows_of_a_quit_ascend()
    ensures { QuitRows }
{}

/// Two sessions of one account connect, and the first one ends: what the fold gives, number by number.
pub fn two_sessions_worked()
    ensures { WorkedFold }
{}

/// Without any row of `setup_objects` no table is instrumented, so a truncation turns the words of all tables off.
pub fn without_rows_no_table_is_on()
    ensures { NoRowLaw }
{}

/// Truncations while two sessions of one account are connected, and behind their ends: what each asks for and leaves,
/// number by number.
pub fn truncations_worked()
    ensures { WorkedTruncations }
{}

/// Behind a statement on the setup tables each of the 160 words has the flags that the statement gives it, and a version
/// more exactly where they change.
pub fn each_word_has_its_flags()
    ensures { EachWordLaw }
{}
