//! The courses of all sessions.

ghost use Rattle.std.specs.Prelude.{ℕ, ◌≡◌, ◌++◌, ◌∷◌, [], ◌==◌, false, cond, List, Some, OnOk};
ghost use Rattle.std.specs.BTreeMap.{get};
ghost use Rattle.std.specs.Ordering.{nat_cmp};
ghost use Rattle.pfs_script.specs.declared.blocks.Block.{Block};
ghost use Rattle.pfs_script.specs.declared.blocks.BlockLine.{BlockLine};
ghost use Rattle.pfs_check_facts.specs.Moments.{IsCourseOf};
ghost use Rattle.pfs_check_facts.specs.SessionFacts.{AreCoursesOf, IsCourseFor};

use crate::NoMemory;
use crate::blocks::follow_block;
use crate::moments::Course;
use pfs_script::Block;
use std::alloc::Global;
use std::collections::BTreeMap;

// Takes out the course of a session; that of one that has done nothing, before its first block.
fn take_course(alloc: Global, courses: &mut BTreeMap<u64, Course>, session: u64) -> Course
    ensures own { (lines : List BlockLine) → IsCourseFor lines (get nat_cmp courses.old session)
        → IsCourseOf lines result }
    ensures others { (other : ℕ) → (session == other) ≡ false
        → get nat_cmp courses.new other ≡ get nat_cmp courses.old other }
{
    match courses.remove(&session) {
        Some(course) => course,
        None => Course::new(alloc),
    }
}

// Keeps it while others are followed.
fn keep_course(
    courses: &mut BTreeMap<u64, Course>,
    session: u64,
    course: Course,
) -> Result<(), NoMemory>
    ensures { OnOk result ((other : ℕ) → get nat_cmp courses.new other
        ≡ cond (session == other) (Some course) (get nat_cmp courses.old other)) }
{
    courses.insert(session, course)?;
    Ok(())
}

// One block more, of its session.
fn follow_one(
    alloc: Global,
    courses: &mut BTreeMap<u64, Course>,
    block: &Block,
) -> Result<(), NoMemory>
    ensures { (blocks : List Block) → AreCoursesOf blocks courses.old
        → OnOk result (AreCoursesOf (blocks ++ block.now ∷ []) courses.new) }
{
    let mut course = take_course(alloc, courses, block.session);
    follow_block(&mut course, block.lines.as_slice())?;
    keep_course(courses, block.session, course)?;
    Ok(())
}

/// These blocks behind the others.
pub(crate) fn follow_blocks(
    alloc: Global,
    courses: &mut BTreeMap<u64, Course>,
    blocks: &[Block],
) -> Result<(), NoMemory>
    ensures { (before : List Block) → AreCoursesOf before courses.old
        → OnOk result (AreCoursesOf (before ++ blocks.now) courses.new) }
{
    for block in blocks {
        follow_one(alloc, courses, block)?;
    }
    Ok(())
}
