// The records at the front of a region, as a value: its bytes, and how many there are. (No `iter`: contracts speak of the i-th record, and of a
// chain's items the clauses say only that calls of `next` gave them. The searches take slice and number: most callers have the lent bytes and a
// word of the header.)
ghost use Rattle.std.specs.Prelude.{◌≡◌, ◌*◌, ◌≤◌, ◌<◌, ⊤, length};
ghost use Rattle.words.specs.Words.{words};
ghost use Rattle.regions.specs.Regions.{Found};

use crate::WholeRecord;
use std::alloc::AllocError;
use std::marker::PhantomData;

pub struct Records<'a, R: WholeRecord> {
    pub bytes: &'a [u8],
    pub count: usize,
    pub kind: PhantomData<R>,
    ghost inside: { 8 * (R.WORDS * count) ≤ length bytes.now },
}

// By hand: the check refuses to derive Clone and Copy for a generic struct with a ghost field.
impl<'a, R: WholeRecord> Clone for Records<'a, R> {
    ghost is_clone = { λ x y. y ≡ x };

    ghost is_infallible = { λ _. ⊤ };

    fn clone(&self) -> Result<Records<'a, R>, AllocError> {
        Ok(*self)
    }
}

impl<'a, R: WholeRecord> Copy for Records<'a, R> {}

impl<'a, R: WholeRecord> Records<'a, R> {
    // The first `count` records of a region.
    pub fn new(bytes: &'a [u8], count: usize) -> Records<'a, R>
        requires { 8 * (R.WORDS * count) ≤ length bytes.now }
        ensures { (result.bytes ≡ bytes.entry) × (result.count ≡ count) }
    {
        Records {
            bytes,
            count,
            kind: PhantomData,
        }
    }

    // The i-th record.
    pub fn get(self, i: usize) -> R
        requires { i < self.count }
        ensures { Found R.WORDS R.as_words (words self.entry.bytes.now) R.from_words i result }
    {
        crate::read(self.bytes, i)
    }
}
