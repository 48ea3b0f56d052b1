//! What holds of all texts, lines and names, and of events as brackets.

ghost use Rattle.std.specs.Prelude.{◌≡◌, ◌++◌, ◌∷◌, [], List, ℕ, is_some, false, length, map, take, drop, Some, codes, ◌<◌};
ghost use Rattle.std.specs.Str.{bytes_eq};
ghost use Rattle.pfs_classes.specs.declared.classes.ClassRef.TheVariants as refs;
ghost use Rattle.pfs_script.specs.declared.forms.Form.{Form};
ghost use Rattle.pfs_script.specs.Headings.{is_known, resolved, head_of, limits_of};
ghost use Rattle.pfs_script.specs.Marks.{Mark, mark_of, copies};
ghost use Rattle.pfs_script.specs.Brackets.{open_in, closed_at, kinds_of, ended_by, opened_by, Follows};
ghost use Rattle.pfs_script.specs.Scripts.{IsExact, IsScript};
ghost use Rattle.pfs_script.specs.Finds.{tables_of, digests_of};
ghost use Rattle.pfs_classes.specs.declared.setting.Setting.{Setting};
ghost use Rattle.pfs_script.specs.declared.blocks.Phase.{Phase};
ghost use Rattle.pfs_script.specs.Events.{lines_for, events_for};
ghost use Rattle.pfs_script.specs.EventRules.{AreEvents};
ghost use Rattle.pfs_script.specs.SessionNames.{names_of};
ghost use Rattle.pfs_script.specs.Appearances.{AreNamed, AreTables, AreDigests};

/// A text is a script or has a first fault, and not both. It is at most one script, and has at most
/// one first fault, with one reason.
pub fn exact()
    ensures { IsExact }
{}

/// Behind any lines a name stands for a class or a lost class exactly where it is known, and a name
/// but `transaction` for a class below their number.
pub fn known_names()
    ensures known { (lines : List Form) (name : List ℕ)
        → is_some (resolved (head_of lines) name) ≡ is_known lines name }
    ensures within { (lines : List Form) (name : List ℕ) (id : ℕ) → bytes_eq name (codes "transaction") ≡ false
        → resolved (head_of lines) name ≡ Some (refs.Class id) → id < length (head_of lines).classes.classes }
{}

/// Brackets nest as a stack makes it. Behind one more mark those events are open that were open before
/// it, but for as many of the innermost as it ends, and the one that it opens. What it ends is what
/// closes at its place, whatever stands behind it.
pub fn nested()
    ensures opens { (marks : List Mark) → (mark : Mark)
        → open_in (marks ++ mark ∷ []) ≡ opened_by (length marks) mark
        ++ drop (ended_by mark (kinds_of (open_in marks))) (open_in marks) }
    ensures closes { (marks : List Mark) → (mark : Mark) → (more : List Mark)
        → closed_at (marks ++ mark ∷ more) (length marks)
        ≡ take (ended_by mark (kinds_of (open_in marks))) (open_in marks) }
{}

/// Marks that may stand, and behind which events of the same kinds are open as before them, may stand
/// so many times as one likes, and still leave those kinds.
pub fn repeats()
    ensures follow { (before body : List Mark) → Follows before body
        → kinds_of (open_in (before ++ body)) ≡ kinds_of (open_in before) → (times : ℕ)
        → Follows before (copies times body) }
    ensures leave { (before body : List Mark) → Follows before body
        → kinds_of (open_in (before ++ body)) ≡ kinds_of (open_in before) → (times : ℕ)
        → kinds_of (open_in (before ++ copies times body)) ≡ kinds_of (open_in before) }
{}

/// In any script the lines of a session's blocks, one after another over all phases and with each repeat
/// written out, open and end events where they may. So what a phase leaves open is still open in a later
/// one, and may be ended there.
pub fn over_phases()
    ensures { (text : List ℕ) (setting : Setting) (phases : List Phase) (number : ℕ) → IsScript text setting phases
        → Follows [] (map mark_of (lines_for number phases)) }
{}

/// The tables of lines are exactly those that a line names, none twice, in the order of their first
/// appearance, and a line that names one is given its place.
pub fn tables()
    ensures { (lines : List Form) → AreTables lines (tables_of lines) }
{}

/// The digest texts of lines are those that their statements have, none twice, in the order of their
/// first appearance, as many as the limit allows. A statement is given the place of its text, and none
/// exactly where its text isn't among them.
pub fn digests()
    ensures { (lines : List Form) → AreDigests lines (digests_of (limits_of lines).digests lines) }
{}

/// The names of lines are exactly those of their classes, which keep their ids, and behind them those of
/// users and hosts, none twice, in the order of their first appearance. A session is given the ids of
/// its own user and host.
pub fn session_names()
    ensures { (lines : List Form) → AreNamed lines (names_of lines) }
{}

/// The events of a session over all phases are the brackets of its lines. Each is of what its opening
/// line says, closes behind that line, and lasts from the clock there to the clock where it closes. They
/// come in the order of their openings, and lie before or inside one another.
pub fn events()
    ensures { (number : ℕ) (phases : List Phase) → AreEvents (lines_for number phases) (events_for number phases) }
{}
