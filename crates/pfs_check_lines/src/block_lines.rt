//! The lines of a block.

ghost use Rattle.std.specs.Prelude.{◌≡◌, ◌++◌, IfOk, OnOk};
ghost use Rattle.pfs_runs.specs.ScriptLines.{connect_lines, line_in, lines_in, sql_line};

use crate::NoMemory;
use crate::repeats::put_written;
use crate::subjects::{stage_on, statement_on, transaction_on, wait_on};
use pfs_exec::{Request, request_of};
use pfs_model::Line;
use pfs_script::{Block, BlockLine, Connect};
use std::alloc::Global;

fn sql_line(what: &Request) -> Line
    ensures { result ≡ sql_line what.now }
{
    match what {
        Request::Refused(error) => Line::Refused { error: *error },
        Request::Query(_) => Line::Query,
        Request::Show(_) => Line::Show,
        Request::Truncate(_) | Request::Update(_) | Request::Insert(_) | Request::Delete(_) => {
            Line::Change
        }
    }
}

/// What a line asks of its session's journal. A text of SQL is read here; the beginning and the end of a repeat ask for
/// nothing. Err is NoMemory alone.
pub fn line_in(alloc: Global, said: &BlockLine) -> Result<Line, NoMemory>
    ensures { IfOk result (λ line. line ≡ line_in said.now) }
{
    match said {
        BlockLine::Wait(class) => Ok(Line::Start {
            subject: wait_on(*class, None),
        }),
        BlockLine::TableWait { class, table } => Ok(Line::Start {
            subject: wait_on(*class, Some(*table)),
        }),
        BlockLine::Statement { class, digest } => Ok(Line::Start {
            subject: statement_on(*class, *digest),
        }),
        BlockLine::Transaction(access) => Ok(Line::Start {
            subject: transaction_on(*access),
        }),
        BlockLine::Stage(class) => Ok(Line::Stage {
            subject: stage_on(*class),
        }),
        BlockLine::StageEnd => Ok(Line::StageEnd),
        BlockLine::Spend(_) | BlockLine::Repeat(_) | BlockLine::Done => Ok(Line::Spend),
        BlockLine::End | BlockLine::EndStatement(_) => Ok(Line::End),
        BlockLine::Quit => Ok(Line::Quit),
        BlockLine::Sql(text) => {
            let what = request_of(alloc, text.as_bytes())?;
            Ok(sql_line(&what))
        }
    }
}

fn put_connect(lines: &mut Vec<Line>, connect: &Option<Connect>) -> Result<(), NoMemory>
    ensures { OnOk result (lines.new.items ≡ lines.old.items ++ connect_lines connect.now) }
{
    match connect {
        Some(_) => {
            lines.push(Line::Connect)?;
            Ok(())
        }
        None => Ok(()),
    }
}

/// The lines of a block, each repeat written out: a connect at a session's first block, and the block's end as the last.
/// A text that a repeat holds is read once. Err is NoMemory alone.
pub fn lines_in(alloc: Global, block: &Block) -> Result<Vec<Line>, NoMemory>
    ensures { IfOk result (λ lines. lines.items ≡ lines_in block.now) }
{
    let mut lines = Vec::new(alloc);
    put_connect(&mut lines, &block.connect)?;
    put_written(alloc, &mut lines, block.lines.as_slice())?;
    lines.push(Line::Close)?;
    Ok(lines)
}
