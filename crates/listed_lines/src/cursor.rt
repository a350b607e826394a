// The lines of a text one after the other.
ghost use Rattle.std.specs.Prelude.{◌≡◌, ◌≤◌, ◌↔◌, IsTrue, IfSome, IsNone, length, drop, replicate};
ghost use Rattle.listed_lines.specs.Starts.{keyed};
ghost use Rattle.listed_lines.specs.Given.{LineRead, list_room};

use crate::line::{Line, line_at, starts_request};
use lent_lists::LIST;

// Lent bytes for the two lists of a request's line, 32 for each hash.
#[derive(Drop)]
pub struct Lists<'a> {
    pub wtxids: &'a mut [u8],
    pub parents: &'a mut [u8],
    ghost room: { (list_room ≤ length wtxids.now) × (list_room ≤ length parents.now) },
}

// The bytes of both lists, for a pass that has none lent. (What takes lists takes `Lists`: a caller may lend slices that are longer.)
#[derive(Drop)]
pub struct ListBytes {
    wtxids: [u8; LIST],
    parents: [u8; LIST],
}

impl ListBytes {
    pub fn zeros() -> ListBytes
        ensures { (result.wtxids ≡ replicate list_room 0) × (result.parents ≡ replicate list_room 0) }
    {
        ListBytes {
            wtxids: [0; LIST],
            parents: [0; LIST],
        }
    }

    pub fn lend<'a>(&'a mut self) -> Lists<'a>
        ensures { (result.wtxids.now ≡ self.old.wtxids) × (result.parents.now ≡ self.old.parents) }
    {
        let wtxids = &mut self.wtxids;
        let parents = &mut self.parents;
        Lists { wtxids, parents }
    }
}

// The lines from an index on. (A function that takes a `&mut Lines` promises that the text is the same afterwards: that is of two values, before the call and behind it,
// and a ghost field speaks of one.)
#[derive(Clone, Copy)]
pub struct Lines<'a> {
    pub text: &'a [u8],
    pub at: usize,
    ghost within: { at ≤ length text.now },
}

impl<'a> Lines<'a> {
    pub fn is_empty(&self) -> bool
        ensures { IsTrue result ↔ (length self.now.text.now ≤ self.now.at) }
    {
        self.at == self.text.len()
    }

    // Whether the next line is a request's, as far as its first byte tells.
    pub fn meets_request(&self) -> bool
        ensures { result ≡ keyed (drop self.now.at self.now.text.now) }
    {
        starts_request(&self.text[self.at..])
    }

    // The next line, whose lists stand in the lent ones then. (No `Iterator`: it would have to hold them.)
    pub fn next(&mut self, lists: &mut Lists) -> Option<Line>
        ensures same { self.new.text ≡ self.old.text }
        ensures line { IfSome result (λ l. LineRead self.old.text.now self.old.at lists.new.wtxids.now lists.new.parents.now (record { value = l; end = self.new.at })) }
        ensures none { IsNone result → (length self.old.text.now ≤ self.old.at) × (self.new.at ≡ self.old.at) }
    {
        if self.is_empty() {
            return None;
        }
        let l = line_at(self.text, self.at, lists);
        self.at = l.end;
        Some(l.value)
    }
}
