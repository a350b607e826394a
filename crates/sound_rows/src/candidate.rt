// The test of a row by itself: fit, of the kind of its half, with the mark of its request.
ghost use Rattle.std.specs.Prelude.{◌≡◌};
ghost use Rattle.words.specs.Words.{Decides};
ghost use Rattle.sound_rows.specs.Rows.{KindPlain, RowAs, MarkFits, mark_for};

use ident::Kind;
use regions::Row;

// The mark of each row of the request that r is a row of, if r is fit: none under a Wtxid.
pub fn mark_of(r: Row, kind: Kind) -> u64
    ensures { (result ≡ mark_for kind r) × MarkFits kind result }
{
    match kind {
        Kind::Txid => r.bits / 16 % 2,
        Kind::Wtxid => 0,
    }
}

// Whether bits say the kind, and no v under a Wtxid.
fn kind_fits(bits: u64, kind: Kind) -> bool
    ensures { Decides result (KindPlain kind bits) }
{
    match kind {
        Kind::Txid => bits % 2 == 0,
        Kind::Wtxid => bits % 4 == 1,
    }
}

// Whether a row is fit by itself, is of the kind and has the mark. (No branch: which of two rows has an owner cannot be foretold. Nobody has tested the bits yet, so
// that none beyond the mark is set is a part of the test.)
pub fn row_fits(r: Row, kind: Kind, mark: u64) -> bool
    requires { MarkFits kind mark }
    ensures { Decides result (RowAs kind mark r) }
{
    let idle = r.owns() | (r.deadline == 0);
    let marked = r.bits / 16 == mark;
    (r.conn != 0) & marked & idle & kind_fits(r.bits, kind)
}
