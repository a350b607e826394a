// Rows and connections: the records of a part of a store, read, replaced, put in, taken out. (Places are no `Part`: they are not read and written whole.)
ghost use Rattle.std.specs.Prelude.{◌≡◌, ℕ, ◌≤◌, ◌<◌, get_or, set};
ghost use Rattle.regions.specs.Regions.{insert_at, remove_at};
ghost use Rattle.store.specs.Flat.{Flat};
ghost use Rattle.store.specs.Image.{Shows};
ghost use Rattle.store.specs.Shown.{rows_at, conns_at, Shown, Turns};
ghost use Rattle.store.specs.Parts.{Shape, Region, PartLaws, in_use, room_in, row_shape, conn_shape};
ghost use Rattle.store.specs.PartLaws.{row_laws, conn_laws};

use crate::layout;
use regions::{Conn, Row, WholeRecord};
use std::ops::Range;

// A part: the word of the header that counts its records, which list of a flat state they are, and its bytes.
pub trait Part: WholeRecord {
    const COUNT: usize;

    ghost COUNT: { ℕ };

    ghost shape: { Shape Self };

    fn bytes(s: &[u8]) -> Range<usize>
        requires { Shown s.now }
        ensures { Region Self.WORDS shape s.now result.start result.end };

    ghost laws: { PartLaws Self.WORDS shape Self.as_words COUNT };
}

impl Part for Row {
    const COUNT: usize = layout::ROWS;

    ghost COUNT = { rows_at };

    ghost shape = { row_shape };

    fn bytes(s: &[u8]) -> Range<usize> {
        layout::rows_part(s)
    }

    ghost laws = { row_laws };
}

impl Part for Conn {
    const COUNT: usize = layout::CONNS;

    ghost COUNT = { conns_at };

    ghost shape = { conn_shape };

    fn bytes(s: &[u8]) -> Range<usize> {
        layout::conns_part(s)
    }

    ghost laws = { conn_laws };
}

// How many of its records are in use.
fn count<R: Part>(s: &[u8]) -> usize
    requires { Shown s.now }
    ensures { result ≡ in_use s.now R.COUNT }
{
    words::get(s, R::COUNT) as usize
}

// The i-th record.
pub fn at<R: Part>(s: &[u8], i: usize) -> R
    requires { Shown s.now × (i < in_use s.now R.COUNT) }
    ensures { (f : Flat) (d : R) → Shows s.now f → result ≡ get_or (R.shape.list f) i d }
{
    regions::read(&s[R::bytes(s)], i)
}

// Stores r as the i-th record.
pub fn set<R: Part>(s: &mut [u8], i: usize, r: R)
    requires { Shown s.old × (i < in_use s.old R.COUNT) }
    ensures { Turns s.old s.new (λ f. R.shape.changed (set (R.shape.list f) i r) f) }
{
    let part = R::bytes(s);
    regions::write(&mut s[part], i, r);
}

// Puts r in as the i-th record.
pub fn add<R: Part>(s: &mut [u8], i: usize, r: R)
    requires { Shown s.old × (i ≤ in_use s.old R.COUNT) × (in_use s.old R.COUNT < room_in s.old R.shape) }
    ensures { Turns s.old s.new (λ f. R.shape.changed (insert_at i r (R.shape.list f)) f) }
{
    let n = count::<R>(s);
    let part = R::bytes(s);
    regions::insert(&mut s[part], n, i, r);
    words::put(s, R::COUNT, (n + 1) as u64);
}

// Takes the i-th record out.
pub fn drop<R: Part>(s: &mut [u8], i: usize)
    requires { Shown s.old × (i < in_use s.old R.COUNT) }
    ensures { Turns s.old s.new (λ f. R.shape.changed (remove_at i (R.shape.list f)) f) }
{
    let n = count::<R>(s);
    let part = R::bytes(s);
    regions::remove::<R>(&mut s[part], n, i);
    words::put(s, R::COUNT, (n - 1) as u64);
}
