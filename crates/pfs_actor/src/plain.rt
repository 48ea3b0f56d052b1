//! The actor over plain rows, for sessions that work one after another.

ghost use Rattle.std.specs.Prelude.{◌≡◌, ◌^◌, ℕ, List, [], IfOk, None, Some, refl};
ghost use Rattle.pfs_levels.specs.Calls.{Call, Opening};
ghost use Rattle.pfs_levels.specs.PlainStore.{labels_after};
ghost use Rattle.pfs_matching.specs.ObjectRules.{opening_objects};
ghost use Rattle.pfs_containers.specs.ContainerState.{lost_in};
ghost use Rattle.pfs_admin.specs.Fold.{state_of};
ghost use Rattle.pfs_admin.specs.OpeningState.{opening_flags};
ghost use Rattle.pfs_actor.specs.PlainViews.{between};

use crate::NoMemory;
use crate::actor::Actor;
use pfs_admin::{Admin, Lost, Named, SetupStatement, Truncation, opening_flags};
use pfs_board::Content;
use pfs_classes::Setting;
use pfs_exec::Select;
use pfs_levels::{Acts, Added, PlainRows, Readable, RingPut, Rows};
use pfs_matching::Objects;
use pfs_names::NameId;
use pfs_rows::Seen;
use pfs_session::{Paused, Remark, Session};
use pfs_setups::show;
use pfs_stat::Stat;
use pfs_text::Rowset;
use std::alloc::Global;
use std::marker::PhantomData;

/// Plain rows with their administration, for a run that contracts name. It waits for nobody.
pub struct PlainActor<N: Named> {
    rows: PlainRows,
    admin: Admin,
    run: PhantomData<N>,
    ghost idle: { (row : ℕ) → (⟦<PlainRows as Readable>⟧.seen rows).hand row ≡ None },
    ghost lent: { (⟦<PlainRows as Readable>⟧.seen rows).words ≡ Some admin.words },
}

impl<N: Named> Drop for PlainActor<N> {
    fn drop(self) {
        let PlainActor {
            rows: _,
            admin: _,
            run: _,
        } = self;
    }
}

impl<N: Named> PlainActor<N> {
    /// Nothing done yet: the store and the administration as the setting opens them.
    pub fn open(alloc: Global, setting: &Setting) -> Result<PlainActor<N>, NoMemory>
        requires setting { N.setting ≡ setting.now }
        ensures opened { IfOk result (λ actor. (start : Opening) → start.flags
            ≡ opening_flags setting.now opening_objects → (⟦<PlainActor<N> as Readable>⟧.seen actor).reached start []) }
        ensures left { IfOk result (λ actor. (⟦<PlainActor<N> as Readable>⟧.seen actor).left ≡ 2 ^ 47) }
        ensures draws { IfOk result (λ actor. (⟦<PlainActor<N> as Readable>⟧.seen actor).draws ≡ 2 ^ 47) }
    {
        let objects = Objects::open(alloc)?;
        let flags = opening_flags(alloc, setting, &objects)?;
        Ok(PlainActor {
            rows: PlainRows::new(alloc, flags.as_slice())?,
            admin: Admin::open(alloc, setting)?,
            run: PhantomData,
        })
    }

    /// What found no place so far, by the labels of the actions that were done.
    pub fn lost(&self) -> Lost
        ensures { (start : Opening) → (calls : List Call)
            → (⟦<PlainActor<N> as Readable>⟧.seen self.now).reached start calls
            → result ≡ lost_in (state_of N.setting N.change (labels_after calls)).kept.now }
    {
        self.admin.lost()
    }
}

impl<N: Named> Readable for PlainActor<N> {
    ghost seen = { λ s. between N.setting N.change (⟦<PlainRows as Readable>⟧.seen s.rows) s.admin };

    fn read(&mut self, row: u64) -> Seen {
        self.rows.read(row)
    }

    #[inline(always)]
    fn load(&mut self, word: u64) -> (u64, u16) {
        self.rows.load(word)
    }
}

impl<N: Named> Rows for PlainActor<N> {
    #[inline(always)]
    fn add_try(&mut self, row: u64, amount: &Stat) -> Added {
        self.rows.add_try(row, amount)
    }

    #[inline(always)]
    fn ring_try(&mut self, row: u64, content: &Content) -> RingPut {
        self.rows.ring_try(row, content)
    }

    fn ticket(&mut self, kind: u64) -> u64 {
        self.rows.ticket(kind)
    }
}

impl<N: Named> Actor for PlainActor<N> {
    ghost setting = { N.setting };

    ghost change = { N.change };

    fn connect(&mut self, session: &mut Session, user: NameId, host: NameId) {
        let label = session.label();
        self.rows.enter(label);
        session.connect(&mut self.rows, &mut self.admin, user, host);
        self.rows.leave();
    }

    fn quit(&mut self, session: &mut Session) {
        self.rows.enter(session.label());
        session.quit(&mut self.rows, &mut self.admin);
        self.rows.leave();
    }

    fn truncate(&mut self, session: &mut Session, what: Truncation) {
        // The most that it may come to is asked for the law that comes with it.
        let _ = self.admin.truncation_cost(what);
        self.rows.enter(session.label());
        session.truncate(&mut self.rows, &mut self.admin, what);
        self.rows.leave();
    }

    fn act(&mut self, session: &mut Session, what: SetupStatement) {
        self.rows.enter(session.label());
        session.act(&mut self.rows, &mut self.admin, what);
        self.rows.leave();
    }

    fn show_held(
        &mut self,
        alloc: Global,
        session: &mut Session,
        query: &Select,
    ) -> Result<Rowset, NoMemory> {
        self.rows.enter(session.label());
        session.act(&mut self.rows, &mut self.admin, SetupStatement::Show);
        match show(alloc, query, self.admin.actors(), self.admin.objects()) {
            Ok(answer) => {
                session.append(Remark::Rows(answer.as_slice().len() as u64));
                self.rows.leave();
                Ok(answer)
            }
            Err(fault) => {
                self.rows.leave();
                Err(fault)
            }
        }
    }

    fn pause(&mut self, session: Session) -> Paused {
        session.pause(&mut self.rows)
    }

    fn pass(&mut self, session: u64) {
        let _ = session;
    }

    ghost idle = { λ s row. refl };

    ghost unlent = { λ s. refl };
}
