// The rows of a window, each changed in the same way.
ghost use Rattle.std.specs.Prelude.{◌≡◌, ◌≤◌};
ghost use Rattle.regions.specs.declared.Row.{Row};
ghost use Rattle.store.specs.Shown.{rows_in, Shown, with_rows, Turns};
ghost use Rattle.store.specs.Stamps.{map_in};

use crate::{parts, rows};

// Each of the rows of a window becomes what `change` makes of it.
pub fn change_rows<F: Fn(regions::Row) -> regions::Row>(s: &mut [u8], w: rows::Window, change: F)
    requires room { Shown s.old × (w.to ≤ rows_in s.old) }
    requires can { (r : Row) → F.pre change r }
    ensures { (g : Row → Row) → ((r x : Row) → F.post change r x → x ≡ g r) → Turns s.old s.new (λ f. with_rows (map_in g w.from w.to f.rows) f) }
{
    for i in w.from..w.to {
        let r = rows::row_at(s, i);
        parts::set(s, i, change(r));
    }
}
