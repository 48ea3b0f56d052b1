//! Setting the classes whose names are like a pattern.

ghost use Rattle.std.specs.Prelude.{◌≡◌, Some, if◌then◌else◌};
ghost use Rattle.pfs_classes.specs.declared.classes.Class.{Class};
ghost use Rattle.pfs_classes.specs.Registry.{IsId, class_at, text_of, with_flags};
ghost use Rattle.pfs_classes.specs.Settings.{ComesFrom};
ghost use Rattle.pfs_text.specs.Likes.{is_like};
ghost use Rattle.pfs_script.specs.Headings.{flags_set_like};

use pfs_classes::laws::known_names;
use pfs_classes::{ClassId, Classes, TRANSACTION};
use pfs_names::Names;
use pfs_text::like;

/// Sets each class whose name is like the pattern, `transaction` among them, and no other.
pub fn set_like(classes: &mut Classes, names: &Names, pattern: &[u8], enabled: bool, timed: bool)
    requires { ComesFrom names.now classes.old }
    ensures value { classes.new ≡ flags_set_like classes.old names.now pattern.now enabled timed }
    ensures come { ComesFrom names.now classes.new }
{
    let count = classes.count();
    for id in 0..count {
        set_if_like(classes, names, ClassId(id), pattern, enabled, timed);
    }
    set_if_like(
        classes,
        names,
        ClassId(TRANSACTION),
        pattern,
        enabled,
        timed,
    );
}

// Sets one class, where its name is like the pattern.
fn set_if_like(
    classes: &mut Classes,
    names: &Names,
    id: ClassId,
    pattern: &[u8],
    enabled: bool,
    timed: bool,
)
    requires given { IsId classes.old id }
    requires come { ComesFrom names.now classes.old }
    ensures value { (class : Class) → class_at classes.old id ≡ Some class
        → classes.new ≡ (if is_like pattern.now (text_of names.now class.name) then with_flags classes.old id enabled
        timed else classes.old) }
    ensures come { ComesFrom names.now classes.new }
{
    known_names();
    let class = classes.class(id);
    if like(pattern, names.get(class.name).as_bytes()) {
        classes.set(id, enabled, timed);
    }
}
