//! The value that a board keeps.

ghost use Rattle.std.specs.Prelude.{◌≡◌, ◌≤◌, [], IfOk, length};
ghost use Rattle.pfs_matching.specs.ObjectRules.{opening_objects};
ghost use Rattle.pfs_admin.specs.OpeningState.{opening_flags};
ghost use Rattle.pfs_board_admin.specs.Desks.{IsDesk, opening_pen};

use crate::NoMemory;
use pfs_admin::{Admin, Named};
use pfs_board::Kept;
use pfs_classes::Setting;
use pfs_switches::Writer;
use std::alloc::Global;
use std::marker::PhantomData;

/// A run over shared tables, as contracts name it: which switch words its actors load.
pub trait Shared: Named {
    ghost use Rattle.atomic_table.specs.Seated.{TableId};

    ghost switches: { TableId };
}

/// The administration with the writer of the switch words. Who is inside row 0 has it, and no other actor.
pub struct Desk<N: Shared> {
    admin: Admin,
    writer: Writer,
    run: PhantomData<N>,
    ghost wide: { 160 ≤ length writer.view.seen },
}

impl<N: Shared> Drop for Desk<N> {
    fn drop(self) {
        let Desk {
            admin: _,
            writer: _,
            run: _,
        } = self;
    }
}

impl<N: Shared> Kept for Desk<N> {
    ghost stands_for = { λ desk labels. IsDesk N.setting N.change N.switches labels desk.admin desk.writer };
}

impl<N: Shared> Desk<N> {
    /// The desk before any action: the administration as it opens, and the writer of words that have its flags.
    pub fn open(alloc: Global, setting: &Setting, writer: Writer) -> Result<Desk<N>, NoMemory>
        requires setting { N.setting ≡ setting.now }
        requires switches { writer.switches ≡ N.switches }
        requires fresh { writer.view ≡ opening_pen (opening_flags setting.now opening_objects) }
        ensures { IfOk result (λ desk. ⟦<Desk<N> as Kept>⟧.stands_for desk []) }
    {
        let admin = Admin::open(alloc, setting)?;
        Ok(Desk::new(admin, writer))
    }

    /// The two together.
    pub fn new(admin: Admin, writer: Writer) -> Desk<N>
        requires { 160 ≤ length writer.view.seen }
        ensures admin { result.admin ≡ admin }
        ensures writer { result.writer ≡ writer }
    {
        Desk {
            admin,
            writer,
            run: PhantomData,
        }
    }

    /// The two apart, for an action.
    pub fn into_parts(self) -> (Admin, Writer)
        ensures admin { result.0 ≡ self.admin }
        ensures writer { result.1 ≡ self.writer }
        ensures wide { 160 ≤ length result.1.view.seen }
    {
        let Desk {
            admin,
            writer,
            run: _,
        } = self;
        (admin, writer)
    }
}
