// A step of a pass that takes rows out of the store: one that stays moves up behind those that stay before it.
// (No `keep::retain`, since a row that goes is counted off in the same store, which a closure over its bytes cannot change.)
ghost use Rattle.std.specs.Prelude.{◌≡◌, ◌≤◌, ◌<◌, get_or, set};
ghost use Rattle.regions.specs.declared.Row.{Row};
ghost use Rattle.store.specs.Flat.{Flat};
ghost use Rattle.store.specs.Image.{Shows};
ghost use Rattle.store.specs.Shown.{rows_in, with_rows, Turns, Shown};

// Puts the i-th row, r, at m, which is not behind it.
pub fn keep_row(s: &mut [u8], m: usize, i: usize, r: regions::Row)
    requires { Shown s.old × (m ≤ i) × (i < rows_in s.old) × ((f : Flat) (d : Row) → Shows s.old f → r ≡ get_or f.rows i d) }
    ensures { Turns s.old s.new (λ f. with_rows (set f.rows m r) f) }
{
    if m < i {
        store::parts::set(s, m, r);
    }
}
