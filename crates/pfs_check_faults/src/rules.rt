//! The rules of a report, and what is judged of one.

/// A rule of a report, in the order in which they are asked: one is asked only where all before it are kept. The rules
/// and their order are our own.
#[derive(Clone, Copy, Debug, PartialEq, Eq)]
pub enum Rule {
    /// The phases, the sessions and the entries are those that the script's lines ask for and allow.
    Shape = 1,
    /// The actions are numbered from 1, each once, and rise along each session.
    Actions = 2,
    /// The changes of each row are numbered from 1, each once.
    Chain = 3,
    /// The switch words are set as the actions ask for it, each version being the next.
    Setup = 4,
    /// What a line names was there, and isn't below what its session must have seen.
    Seen = 5,
    /// Each event has the verdict of the flags that its start saw.
    Verdict = 6,
    /// The numbers of events, the places of connects and the answers of actions are the defined ones.
    Numbers = 7,
    /// Each action changes just what it asks for, and along a row the actions never fall.
    Moves = 8,
    /// Each event is brought where its flags ask for, by the tickets that were drawn, and what was held has its cause.
    Rings = 9,
    /// Each SELECT reads what its table has, and is answered by it.
    Queries = 10,
    /// The tables under a phase's end are those of what the journals so far make.
    Tables = 11,
    /// And the counters of what was lost.
    Lost = 12,
}

/// What is judged of a report.
#[derive(Clone, Copy, Debug, PartialEq, Eq)]
pub enum Judgement {
    /// All rules are kept: it is a run of its script.
    Good,
    /// The first rule that isn't kept, and the first line at which it fails, counted from 1.
    Wrong { rule: Rule, line: u64 },
}
