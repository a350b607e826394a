// The end of a plan's scan: the entries of the selections are written, and every selection is given back. The loops here and in `ordering` go by the number of a
// selection, since their invariants speak of the first j of them. A loop over the numbers themselves has its invariant of those that were yielded, from which the same would
// have to be made in each proof.
ghost use Rattle.std.specs.Prelude.{◌*◌, ◌≤◌, length};
ghost use Rattle.machine.specs.Call.{entry_bytes};
ghost use Rattle.store.specs.Shown.{Kept};
ghost use Rattle.selecting.specs.Selecting.{Marked, GivenBack, RowsOfStore, EntriesPut};

// Gives back the selections whose rows are remembered, from the last to the first: nobody owns their requests again.
pub fn give_back(s: &mut [u8], picks: &[usize])
    requires { Marked s.old picks.now (length picks.now) }
    ensures { GivenBack s.old s.new picks.now (length picks.now) }
{
    for j in (0..picks.len()).rev() {
        let r = store::rows::row_at(s, picks[j]);
        requests::disown(s, announcing::evict::key_of(r), r.conn);
    }
}

// Writes the entries of the rows whose numbers are given, in their order.
pub fn put_entries(s: &[u8], numbers: &[usize], out: &mut [u8])
    requires { Kept s.now × RowsOfStore s.now numbers.now (length numbers.now) × (entry_bytes * length numbers.now ≤ length out.old) }
    ensures { EntriesPut s.now numbers.now (length numbers.now) out.old out.new }
{
    for j in 0..numbers.len() {
        let r = store::rows::row_at(s, numbers[j]);
        claiming::entries::put_entry(out, j, claiming::Entry::from(r));
    }
}
