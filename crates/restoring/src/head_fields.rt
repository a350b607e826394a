// The header of a listing's first line: L, Q, next poll and the cursors.
ghost use Rattle.std.specs.Prelude.{◌≡◌, ◌≤◌, length};
ghost use Rattle.machine.specs.Limits.{need, max_announcements, max_places};
ghost use Rattle.store.specs.Image.{Shows};
ghost use Rattle.listed_lines.specs.Given.{head_state};
ghost use Rattle.restoring.specs.Given.{bare};

use cursors::Cursors;
use listed_lines::line::Head;

// Makes any bytes of the need those of a tracker without requests, with the sizes, next poll and cursors of the line.
pub fn put_head(s: &mut [u8], h: Head)
    requires { (h.limit ≤ max_announcements) × (h.places ≤ max_places) × (length s.old ≡ need h.limit h.places) }
    ensures { Shows s.new (bare (head_state h)) }
{
    store::head::fill(s, h.limit as usize, h.places as usize);
    let c = Cursors {
        next: h.poll,
        known: h.known.map(ident::Key::from),
        ready: h.ready.map(ident::Key::from),
    };
    cursors::save(s, c);
}
