// The candidates of a request: their connections, and whether each item gives the request's key.
ghost use Rattle.std.specs.Prelude.{◌≡◌, ◌≤◌, eqb, length};
ghost use Rattle.ident.specs.Number.{kind_of};
ghost use Rattle.regions.specs.Rows.{quad_number};
ghost use Rattle.machine.specs.SoundTest.{fits};
ghost use Rattle.listed_lines.specs.Given.{candidate_in};
ghost use Rattle.listed_form.specs.Given.{key_in};
ghost use Rattle.listed_requests.specs.Given.{kind_is, most_gathered, Gathers};

use crate::forms::next_candidate;
use crate::lawful::is_wtxid;
use listed_lines::cursor::{Lines, Lists};
use listed_lines::line::Candidate;
use machine::limits::MAX_ALTERNATES;

// What a pass over requests is lent: bytes for the lists of a line, and room for the connections of a hash's candidates. (A slice, that may be longer: an array of
// eight would ask for exactly so many.)
#[derive(Drop)]
pub struct Room<'a> {
    pub lists: Lists<'a>,
    pub conns: &'a mut [u64],
    ghost enough: { most_gathered ≤ length conns.now },
}

// How many connections there are with those of the request; whether each of its candidates fits. (No `Option`: the count is there in either case, and crates/listed_pairs,
// which passes candidates that do not fit too, needs it.)
#[derive(Clone, Copy)]
pub struct Gathered {
    pub count: usize,
    pub fit: bool,
}

// (A function, as its contract says what the derived `==` means of numbers.)
fn same_quad(a: regions::Quad, b: regions::Quad) -> bool
    ensures { result ≡ eqb (quad_number a) (quad_number b) }
{
    a == b
}

// Whether an item of this kind gives a key of that kind.
// (By arms: `ident` hands out the key of an item, and no kind.)
fn gives(item: ident::ItemKind, kind: ident::Kind) -> bool
    ensures { result ≡ kind_is kind (kind_of item) }
{
    match item {
        ident::ItemKind::Transaction | ident::ItemKind::WitnessTransaction => !is_wtxid(kind),
        ident::ItemKind::WTx => is_wtxid(kind),
        ident::ItemKind::Other(_) => false,
    }
}

// "no connection 0", "each item gives its request's key"
fn fits(c: Candidate, key: regions::Key) -> bool
    ensures { result ≡ fits (key_in key) (candidate_in c) }
{
    if c.connection == 0 {
        return false;
    }
    gives(c.kind, key.kind) && same_quad(c.hash, key.hash)
}

// The candidates that come next, of a request with this key: their connections are put behind n others. None if they are more than eight then.
pub fn gather(lines: &mut Lines, key: regions::Key, n: usize, room: &mut Room) -> Option<Gathered>
    requires { n ≤ most_gathered }
    ensures same { lines.new.text ≡ lines.old.text }
    ensures gathers { Gathers lines.old.text.now lines.old.at (key_in key) n room.old.conns.now room.new.conns.now result lines.new.at }
{
    let mut count = n;
    let mut fit = true;
    while let Some(c) = next_candidate(lines, &mut room.lists) {
        if MAX_ALTERNATES <= count {
            return None;
        }
        room.conns[count] = c.connection;
        // (`&`: the candidate is tested in either case, so that a turn has one way through.)
        fit = fit & fits(c, key);
        count += 1;
    }
    Some(Gathered { count, fit })
}
