// The input parted into lines. A line is counted without its line feed; the last one may lack it.
ghost use Rattle.std.specs.Prelude.{ℕ, List, [], ◌++◌, ◌≡◌, ◌<◌, length, take};
ghost use Rattle.printing.specs.Answers.{Answered};
ghost use Rattle.events.specs.Input.{asked_in, has_line, Reading, started, HeldLine, Held, OfHeld, Said, Took, TookAll, TookSome, Ended, Ran, line_feed};

use crate::so_far::{Length, SoFar};
use keeping::kept::Lists;
use lines::read::find;
use std::io::{Read, Write};

// The longest line that is read, and the longest answer with its line feed.
const LINE: usize = 65_536;

const OUT: usize = 1_500_000;

// Bytes that one read takes at most.
const READ: usize = 4096;

// None of a line.
const NOTHING: SoFar = SoFar::Whole(Length { bytes: 0 });

// A line: its bytes so far, and what came of it.
#[derive(Drop)]
struct LineBuffer {
    bytes: [u8; LINE],
    so_far: SoFar,
}

impl LineBuffer {
    fn none() -> LineBuffer
        ensures { HeldLine result.so_far result.bytes [] }
    {
        LineBuffer {
            bytes: [0u8; LINE],
            so_far: NOTHING,
        }
    }

    // More bytes of the line.
    fn keep(&mut self, bytes: &[u8])
        ensures { (line : List ℕ) → HeldLine self.old.so_far self.old.bytes line → HeldLine self.new.so_far self.new.bytes (line ++ bytes.now) }
    {
        let SoFar::Whole(len) = self.so_far else {
            return;
        };
        let room = LINE - len.bytes;
        let kept = bytes.len().min(room);
        let end = len.bytes + kept;
        self.bytes[len.bytes..end].copy_from_slice(&bytes[..kept]);
        if room < bytes.len() {
            self.so_far = SoFar::TooLong;
            return;
        }
        self.so_far = SoFar::Whole(Length { bytes: end });
    }
}

// What the program has of its own: the lists that it keeps between lines, the line that is read, and the last answer. The store is lent.
#[derive(Drop)]
struct Session {
    lists: Lists,
    line: LineBuffer,
    out: [u8; OUT],
}

impl Session {
    // The text of a line's answer: of no call, if the line is too long.
    fn print(&mut self, store: &mut [u8]) -> usize
        ensures { Answered (asked_in self.old.line.so_far self.old.line.bytes) self.old.lists self.new.lists store.old store.new self.old.out self.new.out result }
    {
        match self.line.so_far {
            SoFar::Whole(len) => {
                let line = &self.line.bytes[..len.bytes];
                answering::answers::answer_line(store, &mut self.lists, line, &mut self.out)
            }
            SoFar::TooLong => printing::numbers::unreadable(&mut self.out),
        }
    }

    // Answers one line: the text with its line feed stands at the front of `out`, and so many bytes are written. Nothing is left to do where the
    // output takes no more: `read_lines` asks whether it is closed.
    fn answer<W: Write>(&mut self, output: &mut W, store: &mut [u8]) -> usize
        ensures { Said (asked_in self.old.line.so_far self.old.line.bytes) self.old.lists self.new.lists store.old store.new self.new.out result }
    {
        let n = self.print(store);
        self.out[n] = b'\n';
        let end = n + 1;
        let _ = output.write_all(&self.out[..end]);
        end
    }

    // A line feed: the line is answered, and none of the next is there.
    fn end_line<W: Write>(&mut self, output: &mut W, store: &mut [u8])
        ensures { OfHeld self.old.line.so_far self.old.line.bytes store.old self.old.lists
            (λ p. Took p line_feed self.new.line.so_far self.new.line.bytes store.new self.new.lists self.new.out) }
    {
        self.answer(output, store);
        self.line.so_far = NOTHING;
    }

    // The bytes from index `at` to the next line feed, and that line feed, if it is there: where the next begin.
    // (At once: byte by byte, what came of the line so far would be stored for each.)
    fn take_line<W: Write>(
        &mut self,
        output: &mut W,
        store: &mut [u8],
        bytes: &[u8],
        at: usize,
    ) -> usize
        requires { at < length bytes.now }
        ensures on { at < result }
        ensures taken { (p : Reading) → TookAll p (take at bytes.now) self.old.line.so_far self.old.line.bytes store.old self.old.lists
            → TookAll p (take result bytes.now) self.new.line.so_far self.new.line.bytes store.new self.new.lists }
    {
        let end = find(bytes, at, b'\n');
        self.line.keep(&bytes[at..end]);
        if end == bytes.len() {
            return end;
        }
        self.end_line(output, store);
        end + 1
    }

    fn take_all<W: Write>(&mut self, output: &mut W, store: &mut [u8], bytes: &[u8])
        ensures { OfHeld self.old.line.so_far self.old.line.bytes store.old self.old.lists
            (λ p. TookAll p bytes.now self.new.line.so_far self.new.line.bytes store.new self.new.lists) }
    {
        let mut at = 0;
        // No range: where a line ends shows only behind it.
        while at < bytes.len() {
            at = self.take_line(output, store, bytes, at);
        }
    }

    // Reads once: whether bytes came, or the input is at its end.
    fn read_some<R: Read, W: Write>(
        &mut self,
        input: &mut R,
        output: &mut W,
        store: &mut [u8],
    ) -> bool
        ensures { OfHeld self.old.line.so_far self.old.line.bytes store.old self.old.lists
            (λ p. TookSome p self.new.line.so_far self.new.line.bytes store.new self.new.lists) }
    {
        let mut bytes = [0u8; READ];
        let n = input.read(&mut bytes).unwrap_or(0);
        if n == 0 {
            return false;
        }
        self.take_all(output, store, &bytes[..n]);
        true
    }

    // Reads to the end of the input, or until the output is closed. The turns are counted because a proved loop ends: no run uses them up.
    fn read_lines<R: Read, W: Write>(&mut self, input: &mut R, output: &mut W, store: &mut [u8])
        requires { Held self.old.line.so_far self.old.line.bytes store.old self.old.lists (started store.old) }
        ensures { TookSome (started store.old) self.new.line.so_far self.new.line.bytes store.new self.new.lists }
    {
        for _ in 0..u64::MAX {
            if !self.read_some(input, output, store) {
                return;
            }
            if output.flush().is_err() {
                return;
            }
        }
    }

    // The end of the input: a last line may lack its line feed.
    fn end<W: Write>(&mut self, output: &mut W, store: &mut [u8])
        ensures { OfHeld self.old.line.so_far self.old.line.bytes store.old self.old.lists (λ p. Ended p store.new self.new.out) }
    {
        if has_line(self.line.so_far) {
            self.answer(output, store);
        }
    }
}

// Whether bytes came behind the last line feed.
fn has_line(so_far: SoFar) -> bool
    ensures { result ≡ has_line so_far }
{
    match so_far {
        SoFar::Whole(len) => len.bytes > 0,
        SoFar::TooLong => true,
    }
}

// The whole input.
pub fn run<R: Read, W: Write>(input: &mut R, output: &mut W, store: &mut [u8])
    ensures { Ran store.old store.new }
{
    let mut session = Session {
        lists: Lists::none(),
        line: LineBuffer::none(),
        out: [0u8; OUT],
    };
    session.read_lines(input, output, store);
    session.end(output, store);
}
