//! The cells of the registered classes, by their kinds, and how many digests have a place.

ghost use Rattle.std.specs.Prelude.{◌≡◌, ◌++◌, ◌∷◌, [], cond, IfOk, OnOk};
ghost use Rattle.pfs_admin.specs.AdministrationStates.{kind_cells};
ghost use Rattle.pfs_admin.specs.OpeningState.{cells_of_kind, kinds_of};

use crate::NoMemory;
use pfs_classes::{Classes, Setting};
use pfs_readsets::is_kind_cell;
use pfs_rows::TableKind;
use std::alloc::Global;
use std::marker::Model;

/// The cells of each kind, ascending, and how many digests have a place.
#[derive(Drop)]
pub(crate) struct CellsByKind {
    waits: Vec<u64>,
    stages: Vec<u64>,
    statements: Vec<u64>,
    transactions: Vec<u64>,
    digests: u64,
}

impl Model for CellsByKind {
    ghost use Rattle.pfs_admin.specs.AdministrationStates.{KindCells};

    ghost Value = { KindCells };

    ghost view = { λ s. record {
      waits = s.waits.items;
      stages = s.stages.items;
      statements = s.statements.items;
      transactions = s.transactions.items;
      digests = s.digests;
    } };
}

impl CellsByKind {
    /// The cells of the registered classes, and the number of the digest texts.
    #[tactic(auto, unfolding(crate::specs::OpeningState::kinds_of))]
    pub(crate) fn open(alloc: Global, setting: &Setting) -> Result<CellsByKind, NoMemory>
        ensures { IfOk result (λ cells. cells ≡ kinds_of setting.now) }
    {
        let classes = &setting.classes;
        Ok(CellsByKind {
            waits: cells_of_kind(alloc, classes, TableKind::Waits)?,
            stages: cells_of_kind(alloc, classes, TableKind::Stages)?,
            statements: cells_of_kind(alloc, classes, TableKind::Statements)?,
            transactions: cells_of_kind(alloc, classes, TableKind::Transactions)?,
            digests: setting.digests.as_slice().len() as u64,
        })
    }

    /// How many digests have a place.
    pub(crate) fn digests(&self) -> u64
        ensures { result ≡ self.now.digests }
    {
        self.digests
    }

    /// The cells of a kind.
    pub(crate) fn of_kind(&self, kind: TableKind) -> &[u64]
        ensures { result.now ≡ kind_cells self.now kind }
    {
        match kind {
            TableKind::Waits => self.waits.as_slice(),
            TableKind::Stages => self.stages.as_slice(),
            TableKind::Statements => self.statements.as_slice(),
            TableKind::Transactions => self.transactions.as_slice(),
        }
    }
}

fn cells_of_kind(alloc: Global, classes: &Classes, kind: TableKind) -> Result<Vec<u64>, NoMemory>
    ensures { IfOk result (λ cells. cells.items ≡ cells_of_kind classes.now kind) }
{
    let mut cells = Vec::with_capacity(alloc, 64)?;
    for cell in 0..64 {
        let due = is_kind_cell(classes, kind, cell);
        push_if(&mut cells, due, cell)?;
    }
    Ok(cells)
}

fn push_if(cells: &mut Vec<u64>, due: bool, cell: u64) -> Result<(), NoMemory>
    ensures { OnOk result (cells.new.items ≡ cells.old.items ++ cond due (cell ∷ []) []) }
{
    if due {
        cells.push(cell)?;
    }
    Ok(())
}
