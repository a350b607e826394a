// Places taken out in one pass: the dead ones go, the others keep their order.
ghost use Rattle.std.specs.Prelude.{◌≡◌, ◌*◌, length};
ghost use Rattle.words.specs.Words.{words};
ghost use Rattle.places.specs.Places.{Place, place_size, place_words};
ghost use Rattle.store.specs.Shown.{Shown, with_places, Turns};
ghost use Rattle.package_stages.specs.Dead.{filter, live};

use store::layout;

// Takes every dead place out of the store.
// (Part, `retain`, count: one function over `store::parts::Part` would repeat `retain`'s clauses for a store, and places are no `Part`.)
pub fn drop_dead(s: &mut [u8])
    requires { Shown s.old }
    ensures { Turns s.old s.new (λ f. with_places (filter live f.places) f) }
{
    let n = store::head::held_places(s);
    let part = layout::places_part(s);
    let m = places::clearing::retain(
        &mut s[part],
        n,
        |p| -> bool
            requires { length p.now ≡ 8 * place_size }
            ensures { (x : Place) → words p.now ≡ place_words x → result ≡ live x }
        { places::read_head(p, 0).stage > places::DEAD },
    );
    words::put(s, layout::HELD_PLACES, m as u64);
}
