// Forms: the fields of a line in their order, a letter each. k: key, i: item, h: hash, m: combined hash, c: connection, n: now, r: ready,
// q: priority, p: preferred, s: whether a wtxid source exists. (Letters are bytes, and no enum: so a form is written as a byte string, as b"kcn", where an enum would need a list
// of its values for each form.)
ghost use Rattle.std.specs.Prelude.{◌≡◌};
ghost use Rattle.ident.specs.Words.{key_num};
ghost use Rattle.regions.specs.Rows.{quad_number};
ghost use Rattle.lines.specs.Values.{named_key, named_item};
ghost use Rattle.reading.specs.Forms.{key_in, blank, put_key, put_item, put_hash, put_number, put_bool};
ghost use Rattle.reading.specs.Given.{values_of, FieldTaken, FormRead, WholeRead};

use crate::fields::{Parsed, bool_at, hash_at, item_at, key_at, number_at};
use lines::read::Named;

// The values of a line's fields, hashes as plain words; an item's hash is `hash`. What a form does not name is zero. (`preferred` and `source` are fields as the others are: the
// letters p and s. A field is an `Option` nowhere, since each call names by its form which of them it has read.)
#[derive(Clone, Copy)]
pub struct Values {
    pub kind: ident::Kind,
    pub item: ident::ItemKind,
    pub hash: regions::Quad,
    pub combined: regions::Quad,
    pub connection: u64,
    pub clock: u64,
    pub ready: u64,
    pub priority: u64,
    pub preferred: bool,
    pub source: bool,
}

// The key that the fields name.
impl From<Values> for ident::Key {
    ghost from_gives = { λ v k. key_num k ≡ key_in (values_of v) };

    fn from(v: Values) -> ident::Key {
        let kind = v.kind;
        let hash = ident::Hash::from(v.hash);
        ident::Key { kind, hash }
    }
}

// (No Default: these are the values before any field is read, which none but `read_form` should start from.)
fn no_values() -> Values
    ensures { values_of result ≡ blank }
{
    Values {
        kind: ident::Kind::Txid,
        item: ident::ItemKind::Transaction,
        hash: regions::Quad::ZERO,
        combined: regions::Quad::ZERO,
        connection: 0,
        clock: 0,
        ready: 0,
        priority: 0,
        preferred: false,
        source: false,
    }
}

fn with_key(v: Values, key: Named<ident::Kind>) -> Values
    ensures { values_of result ≡ put_key (values_of v) (named_key key) }
{
    let Named { kind, hash } = key;
    Values { kind, hash, ..v }
}

fn with_item(v: Values, item: Named<ident::ItemKind>) -> Values
    ensures { values_of result ≡ put_item (values_of v) (named_item item) }
{
    let hash = item.hash;
    Values {
        item: item.kind,
        hash,
        ..v
    }
}

// The hash, or the combined hash.
fn with_hash(v: Values, f: u8, q: regions::Quad) -> Values
    ensures { values_of result ≡ put_hash f (values_of v) (quad_number q) }
{
    match f {
        b'h' => Values { hash: q, ..v },
        b'm' => Values { combined: q, ..v },
        _ => v,
    }
}

// The connection, the clock, the ready time, or the priority.
fn with_number(v: Values, f: u8, n: u64) -> Values
    ensures { values_of result ≡ put_number f (values_of v) n }
{
    match f {
        b'c' => Values { connection: n, ..v },
        b'n' => Values { clock: n, ..v },
        b'r' => Values { ready: n, ..v },
        b'q' => Values { priority: n, ..v },
        _ => v,
    }
}

// Whether the connection is preferred, or a wtxid source exists: b is the value that is put.
fn with_bool(v: Values, f: u8, b: bool) -> Values
    ensures { values_of result ≡ put_bool f (values_of v) b }
{
    match f {
        b'p' => Values { preferred: b, ..v },
        b's' => Values { source: b, ..v },
        _ => v,
    }
}

// The field behind the comma at index e, which is of the letter f, among the values. (By the letter here for how it is read, and above for where it goes, as the
// definition has it.)
fn take_field(line: &[u8], e: usize, f: u8, v: Values) -> Option<Parsed<Values>>
    ensures { FieldTaken line.now e f (values_of v) result }
{
    match f {
        b'k' => Some(key_at(line, e)?.map(|k| with_key(v, k))),
        b'i' => Some(item_at(line, e)?.map(|i| with_item(v, i))),
        b'h' | b'm' => Some(hash_at(line, e)?.map(|q| with_hash(v, f, q))),
        b'p' | b's' => Some(bool_at(line, e)?.map(|b| with_bool(v, f, b))),
        _ => Some(number_at(line, e)?.map(|n| with_number(v, f, n))),
    }
}

// The fields of a form, behind the comma at index e.
pub fn read_form(line: &[u8], e: usize, form: &[u8]) -> Option<Parsed<Values>>
    ensures { FormRead line.now e form.now result }
{
    let mut taken = Parsed {
        value: no_values(),
        end: e,
    };
    for &f in form {
        taken = take_field(line, taken.end, f, taken.value)?;
    }
    Some(taken)
}

// The fields of a form, the line's last, behind the comma at index e.
pub fn read_whole(line: &[u8], e: usize, form: &[u8]) -> Option<Values>
    ensures { WholeRead line.now e form.now result }
{
    read_form(line, e, form)?.last(line)
}
