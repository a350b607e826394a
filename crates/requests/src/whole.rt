// A whole request goes: the tally is lowered for each of its candidates, then one move takes their rows out.
ghost use Rattle.std.specs.Prelude.{◌≡◌, ◌≤◌};
ghost use Rattle.std.proofs.Math.Option.{none};
ghost use Rattle.ident.specs.Words.{key_num};
ghost use Rattle.regions.specs.Regions.{remove_range};
ghost use Rattle.machine.specs.State.{State};
ghost use Rattle.machine.specs.Table.{at};
ghost use Rattle.machine.specs.Fail.{forget};
ghost use Rattle.machine.specs.Sound.{Sound};
ghost use Rattle.store.specs.Flat.{rows_of};
ghost use Rattle.store.specs.Image.{Writes};
ghost use Rattle.store.specs.Shown.{rows_in, Kept};
ghost use Rattle.requests.specs.Changes.{Makes, Shorn};

// The rows of a window, which are still there, are counted no more.
fn count_out_rows(s: &mut [u8], w: store::rows::Window)
    requires { Kept s.old × (w.to ≤ rows_in s.old) }
    ensures { (st : State) → Sound st → Writes s.old st → Shorn s.new st (rows_of st.table) (remove_range w.from w.to (rows_of st.table)) }
{
    for i in w.from..w.to {
        let r = store::rows::row_at(s, i);
        store::counting::count_out(s, r.conn, u64::from(r.owns()));
    }
}

// Every candidate of the request at k, which nobody owns, leaves it.
pub fn drop_all(s: &mut [u8], k: ident::Key)
    requires { Kept s.old }
    ensures { Makes s.old s.new (λ t. (at (key_num k) t).owner ≡ none) (forget (key_num k)) }
{
    let key = regions::Key::from(k);
    let w = crate::window_of(s, key);
    count_out_rows(s, w);
    store::rows::drop_rows(s, w);
}
