//! Rows removed at named places.
ghost use Rattle.std.specs.Prelude.{◌≡◌, ℕ, ◌<◌, All, length, vec_capacity};
ghost use Rattle.std.specs.List.Sorted.{IsStrictlyIncreasing};
ghost use Rattle.pfs_matching.specs.KeyedRows.{without_named};

/// Removes the rows at these places, which ascend. The last goes first, so that the others keep their places.
pub(crate) fn remove_places<R: Drop>(rows: &mut Vec<R>, places: &[usize])
    requires inside { All (λ place. place < length rows.old.items) places.now }
    requires ascending { IsStrictlyIncreasing places.now }
    ensures rows { rows.new.items ≡ without_named places.now rows.old.items }
    ensures room { vec_capacity rows.new ≡ vec_capacity rows.old }
{
    let mut left = places.len();
    while left > 0 {
        left -= 1;
        rows.remove(places[left]);
    }
}
