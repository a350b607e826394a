// Fields of a listing, written where they fit and measured in any case.
//
// Each function answers the index behind its text. The text stands from `at` on if it ends inside `out`; else `out` may have anything there.
// So the same walk measures a listing, over an `out` of no use, and writes it.
//
// The index goes beside the bytes, as in crates/lines (src/write.rt) and for its reason. It may lie behind their end too, where a walk only measures.
ghost use Rattle.std.specs.Prelude.{◌≡◌, ◌+◌, ◌≤◌, ◌∷◌, length};
ghost use Rattle.ident.specs.Words.{hash_num, key_num};
ghost use Rattle.regions.specs.Rows.{quad_number};
ghost use Rattle.machine.specs.Table.{one};
ghost use Rattle.store.specs.Gather.{item_kind_as};
ghost use Rattle.machine.specs.Text.{decimal_digits, decimal, hash_digits, hexadecimal, bool_text, item_kind_text};
ghost use Rattle.machine.specs.Listing.{short, maybe_fields, key_field, owner_fields};
ghost use Rattle.package_stages.specs.Changes.{owner_as};
ghost use Rattle.lines.specs.Text.{number_room, key_room, with_commas};
ghost use Rattle.saving.specs.Laid.{Lays, farthest, hash_room, owner_room};

use lines::write::{kind_letter, put_bytes};

// The digits of the largest number, and of a hash.
const NUMBER_DIGITS: usize = 20;

const HASH_DIGITS: usize = 64;

pub fn put_text(out: &mut [u8], at: usize, t: &[u8]) -> usize
    requires { at + length t.now ≤ farthest }
    ensures { Lays out.old out.new at t.now result }
{
    let e = at + t.len();
    if e <= out.len() {
        return put_bytes(out, at, t);
    }
    e
}

// (`put_hash` has this shape: over room and writer each call would have to give both.)
pub fn put_number(out: &mut [u8], at: usize, n: u64) -> usize
    requires { at + decimal_digits ≤ farthest }
    ensures { (result ≤ at + decimal_digits) × Lays out.old out.new at (decimal n) result }
{
    let mut t = [0; NUMBER_DIGITS];
    let e = lines::write::put_decimal(&mut t, 0, n);
    put_text(out, at, &t[..e])
}

pub fn put_hash(out: &mut [u8], at: usize, q: regions::Quad) -> usize
    requires { at + hash_digits ≤ farthest }
    ensures { (result ≤ at + hash_digits) × Lays out.old out.new at (hexadecimal (quad_number q)) result }
{
    let mut t = [0; HASH_DIGITS];
    let e = lines::write::put_hash(&mut t, 0, q);
    put_text(out, at, &t[..e])
}

// (A number for the kind goes in as `ident::Kind::from(n)`, which takes any: the text is that of `kind_is n`.)
pub fn put_key(out: &mut [u8], at: usize, k: ident::Key) -> usize
    requires { at + key_room ≤ farthest }
    ensures { (result ≤ at + key_room) × Lays out.old out.new at (key_field short (key_num k)) result }
{
    let e = put_text(out, at, &[kind_letter(k.kind)]);
    put_hash(out, e, regions::Quad::from(k.hash))
}

// The letter of an item, by the kind of its key and whether it is v. (An `ident::ItemKind` has kinds that no row has. A number for the kind goes in as above, a number w for the other as
// `w != 0`: `item_kind_as` says the same of every number but 0.)
pub fn put_letter(out: &mut [u8], at: usize, kind: ident::Kind, witness: bool) -> usize
    requires { at + 1 ≤ farthest }
    ensures { (result ≡ at + 1) × Lays out.old out.new at (item_kind_text (item_kind_as kind (one witness))) result }
{
    match (kind, witness) {
        (ident::Kind::Wtxid, _) => put_text(out, at, b"w"),
        (ident::Kind::Txid, true) => put_text(out, at, b"v"),
        (ident::Kind::Txid, false) => put_text(out, at, b"t"),
    }
}

// ---- behind a comma

pub fn next_number(out: &mut [u8], at: usize, n: u64) -> usize
    requires { at + number_room ≤ farthest }
    ensures { (result ≤ at + number_room) × Lays out.old out.new at (44 ∷ decimal n) result }
{
    let from = put_text(out, at, b",");
    put_number(out, from, n)
}

pub fn next_hash(out: &mut [u8], at: usize, h: ident::Hash) -> usize
    requires { at + hash_room ≤ farthest }
    ensures { (result ≤ at + hash_room) × Lays out.old out.new at (44 ∷ hexadecimal (hash_num h)) result }
{
    let from = put_text(out, at, b",");
    put_hash(out, from, regions::Quad::from(h))
}

// The digit of a bool: b picks the text alone.
pub fn next_bool(out: &mut [u8], at: usize, b: bool) -> usize
    requires { at + 2 ≤ farthest }
    ensures { (result ≤ at + 2) × Lays out.old out.new at (44 ∷ bool_text b) result }
{
    if b {
        return put_text(out, at, b",1");
    }
    put_text(out, at, b",0")
}

// An owner and its deadline, if there is one. (`none` or what is there: so do `next_time` and `next_cursor`. Each says it in one arm; one function over a closure would ask for a contract of
// the closure in each, and be no shorter.)
pub fn next_owner(out: &mut [u8], at: usize, owner: Option<package_stages::Owner>) -> usize
    requires { at + owner_room ≤ farthest }
    ensures { (result ≤ at + owner_room) × Lays out.old out.new at (with_commas (maybe_fields owner_fields (owner_as owner))) result }
{
    let Some(owner) = owner else {
        return put_text(out, at, b",none");
    };
    let e = next_number(out, at, owner.connection);
    next_number(out, e, owner.deadline)
}
