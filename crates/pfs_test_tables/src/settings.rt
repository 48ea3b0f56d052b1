//! A setting with the built-in classes and one digest text.

ghost use Rattle.std.specs.Prelude.{◌≡◌, ◌≤◌, IfOk, length};
ghost use Rattle.pfs_classes.specs.Settings.{ComesFrom};
ghost use Rattle.pfs_rows.specs.Limits.{AreInRange};

use pfs_classes::{Classes, DigestList, DigestText, NoMemory, Setting, TableList};
use pfs_names::Names;
use pfs_rows::Limits;
use pfs_text::Text;
use std::alloc::Global;
use std::test::Fail;

/// The built-in classes. Which they are stays in here: a proof that knows the whole list is long.
pub(crate) fn builtins(
    alloc: Global,
    names: &mut Names,
    limits: &Limits,
) -> Result<Classes, NoMemory>
    requires room { length names.old ≤ 65500 }
    requires in_range { AreInRange limits.now }
    ensures limits { IfOk result (λ classes. classes.limits ≡ limits.now) }
    ensures come { IfOk result (λ classes. ComesFrom names.new classes) }
{
    let classes = Classes::builtin(alloc, names, limits)?;
    Ok(classes)
}

/// The setting of these names and tables.
pub(crate) fn setting(alloc: Global, texts: &[&str], tables: TableList) -> Result<Setting, Fail>
    requires { length tables ≤ 64 }
{
    let mut names = Names::new(alloc);
    for text in texts {
        names.intern(text)?;
    }
    if names.count() > 65_500 {
        return Err(Fail::from("too many names"));
    }
    let limits = Limits::opening();
    let classes = builtins(alloc, &mut names, &limits)?;
    let text = Text::from_slice(alloc, b"SELECT ?")?;
    let mut digests = DigestList::new(Vec::new(alloc));
    digests.push(DigestText { text })?;
    Ok(Setting::new(names, classes, tables, digests, limits, 28_888))
}
