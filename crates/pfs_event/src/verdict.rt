//! What becomes of an event.

ghost use Rattle.std.specs.Prelude.{◌≡◌};
ghost use Rattle.pfs_event.specs.Verdicts.{is_let_through, verdict_name};

/// What is decided of an event at its start: the first that applies, in this order. The order and the
/// names are our own; what each looks at is MySQL's.
#[derive(Clone, Copy, Debug, PartialEq, Eq)]
pub enum Verdict {
    /// The session has no thread slot.
    LostThread,
    /// The class found no room when it was registered.
    LostClass,
    /// `global_instrumentation` is NO.
    OffGlobal,
    /// The class's ENABLED is NO.
    OffClass,
    /// The event is of a table that is off.
    OffTable,
    /// `thread_instrumentation` is YES, and the thread's INSTRUMENTED is NO.
    OffThread,
    /// A statement, while as many of the session's statements are open as may be.
    LostNested,
    /// A wait, while four waits of the session are open.
    LostLocker,
    /// `thread_instrumentation` is NO: the event counts globally alone.
    Aside,
    /// The event counts for its thread.
    Attributed,
}

impl Verdict {
    /// Whether an event with this verdict counts anywhere: it is `Aside` or `Attributed`.
    pub fn is_let_through(self) -> bool
        ensures { result ≡ is_let_through self }
    {
        matches!(self, Verdict::Aside | Verdict::Attributed)
    }

    /// The verdict's name in a report.
    pub fn name(self) -> &'static str
        ensures { result.now ≡ verdict_name self }
    {
        match self {
            Verdict::LostThread => "lost-thread",
            Verdict::LostClass => "lost-class",
            Verdict::OffGlobal => "off-global",
            Verdict::OffClass => "off-class",
            Verdict::OffTable => "off-table",
            Verdict::OffThread => "off-thread",
            Verdict::LostNested => "lost-nested",
            Verdict::LostLocker => "lost-locker",
            Verdict::Aside => "aside",
            Verdict::Attributed => "attributed",
        }
    }
}
