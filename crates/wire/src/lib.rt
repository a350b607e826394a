// Inventory payloads as they come off the wire, read and written (document 02, request a): inv, getdata and notfound carry a count and that many items of 36 bytes.
//
// A list of items has 40 bytes for each, in the layout of `lent_lists::item_at`: what the reader leaves in the answer can be lent to `announce_transactions` and
// `transaction_not_found` as it is. Neither call takes a store. Refusal 10 is tested before 7, and both before the first byte is written.
#![tactic(auto)]

ghost use Rattle.std.specs.Prelude.{◌≡◌, ◌+◌, ◌*◌, ◌<◌, ◌≤◌, length, get_or, take, drop};
ghost use Rattle.ident.specs.Number.{Item};
ghost use Rattle.words.specs.Words.{number, digits, recs, splice};
ghost use Rattle.machine.specs.Step.{written};
ghost use Rattle.lent_lists.specs.Items.{item_bytes, items_in};
ghost use Rattle.wire.specs.Payload.{max_items, wire_bytes, compact_size, wire_of, wires_of, wire_item, all_plain};
ghost use Rattle.wire.specs.Calls.{refusal_number, item_answer, items_answer, items_reply, bytes_reply, Reads, Writes};
ghost use Rattle.wire.specs.Steps.{Begins, Holds, Counted};

// Why a call is refused. Of its own: `outcome` stands above the store's crates, of which a payload needs none.
#[derive(Clone, Copy, PartialEq, Eq, Debug)]
pub enum Refusal {
    AnswerTooShort,
    BadPayload,
}

// The numbers of document 01's table, to which request a adds 10.
impl From<Refusal> for u64 {
    ghost from_gives = { λ r n. n ≡ refusal_number r };

    fn from(refusal: Refusal) -> u64 {
        match refusal {
            Refusal::AnswerTooShort => 7,
            Refusal::BadPayload => 10,
        }
    }
}

pub const MAX_ITEMS: usize = 50_000;

// Bytes of an item in a payload.
pub const WIRE_BYTES: usize = 36;

// The first byte of a count that has two more; a count below it is one byte.
const TWO_MORE: u8 = 253;

// ---- a payload's count

// The count n and where its items begin, if the payload, which begins with n, has so many items behind it. (A pair: `read_payload` takes it apart at once.)
fn matching(p: &[u8], n: usize, at: usize) -> Option<(usize, usize)>
    requires { Begins p.now n at }
    ensures { Counted p.now result }
{
    if MAX_ITEMS < n {
        return None;
    }
    if p.len() != at + n * WIRE_BYTES {
        return None;
    }
    Some((n, at))
}

// A first byte of 254 or 255 begins a count above 50,000, or one that is not in its shortest form.
fn count_of(p: &[u8]) -> Option<(usize, usize)>
    ensures { Counted p.now result }
{
    match *p {
        [c, ..] if c < TWO_MORE => matching(p, usize::from(c), 1),
        [TWO_MORE, low, high, ..] => {
            let n = u16::from_le_bytes([low, high]);
            if n < u16::from(TWO_MORE) {
                return None;
            }
            matching(p, usize::from(n), 3)
        }
        _ => None,
    }
}

// ---- items read

// The type that stands from index a on.
fn type_at(p: &[u8], a: usize) -> u64
    requires { a + 4 ≤ length p.now }
    ensures { result ≡ number 256 (take 4 (drop a p.now)) }
{
    u64::from(u32::from_le_bytes([p[a], p[a + 1], p[a + 2], p[a + 3]]))
}

// Stores the item of the payload that stands from index a on as the i-th of the list.
fn read_item(p: &[u8], a: usize, list: &mut [u8], i: usize)
    requires { (a + wire_bytes ≤ length p.now) × (item_bytes * i + item_bytes ≤ length list.old) }
    ensures { list.new ≡ splice list.old (item_bytes * i) (item_answer (wire_item (take wire_bytes (drop a p.now)))) }
{
    let t = type_at(p, a);
    let h = ident::hash_at(p, a + 4);
    lent_lists::put_record(list, i * lent_lists::RECORD, t, h);
}

// Stores the n items of the payload, which stand from index at on, as the first of the list. (n is the payload's own count: the list goes on behind n items, and the contract
// speaks of what stays there.)
fn read_items(p: &[u8], at: usize, n: usize, list: &mut [u8])
    requires { (at + wire_bytes * n ≤ length p.now) × (item_bytes * n ≤ length list.old) }
    ensures { list.new ≡ written (items_answer (recs wire_bytes wire_item n (drop at p.now))) list.old }
{
    for i in 0..n {
        read_item(p, at + i * WIRE_BYTES, list, i);
    }
}

// The items of the payload stand in the answer, in 40 bytes each: so many as it says.
pub fn read_payload(p: &[u8], answer: &mut [u8]) -> Result<u64, Refusal>
    ensures { Reads p.now answer.old answer.new (items_reply result answer.new) }
{
    let Some((n, at)) = count_of(p) else {
        return Err(Refusal::BadPayload);
    };
    if answer.len() < n * lent_lists::ITEM {
        return Err(Refusal::AnswerTooShort);
    }
    read_items(p, at, n, answer);
    Ok(n as u64)
}

// ---- items written

// Whether the list has no other item of type 1, 0x40000001 or 5.
fn all_plain(items: &[u8]) -> bool
    ensures { result ≡ all_plain (items_in items.now) }
{
    (0..lent_lists::items(items)).all(|i| ident::is_plain(lent_lists::item_at(items, i).kind))
}

// Stores the type t from index a on. (Byte by byte, as `words::put`.)
fn put_type(s: &mut [u8], a: usize, t: u32)
    requires { a + 4 ≤ length s.old }
    ensures { s.new ≡ splice s.old a (digits 256 4 t) }
{
    let [b0, b1, b2, b3] = t.to_le_bytes();
    s[a] = b0;
    s[a + 1] = b1;
    s[a + 2] = b2;
    s[a + 3] = b3;
}

// Stores the i-th item of the list as a payload has it, from index a on.
fn write_item(items: &[u8], i: usize, s: &mut [u8], a: usize)
    requires { (i < length (items_in items.now)) × (a + wire_bytes ≤ length s.old) }
    ensures { (d : Item) → s.new ≡ splice s.old a (wire_of (get_or (items_in items.now) i d)) }
{
    let item = lent_lists::item_at(items, i);
    put_type(s, a, u32::from(item.kind));
    ident::put_hash(s, a + 4, item.hash);
}

// Bytes of the count n.
fn count_bytes(n: usize) -> usize
    requires { n ≤ max_items }
    ensures { result ≡ length (compact_size n) }
{
    if n < usize::from(TWO_MORE) { 1 } else { 3 }
}

// Stores the count n in front.
fn put_count(s: &mut [u8], n: usize)
    requires { (n ≤ max_items) × (length (compact_size n) ≤ length s.old) }
    ensures { s.new ≡ written (compact_size n) s.old }
{
    if n < usize::from(TWO_MORE) {
        s[0] = n as u8;
        return;
    }
    let [low, high] = (n as u16).to_le_bytes();
    s[0] = TWO_MORE;
    s[1] = low;
    s[2] = high;
}

// Stores the items of the list one behind the other, from index at on.
fn write_items(items: &[u8], s: &mut [u8], at: usize)
    requires { at + wire_bytes * length (items_in items.now) ≤ length s.old }
    ensures { s.new ≡ splice s.old at (wires_of (items_in items.now)) }
{
    for i in 0..lent_lists::items(items) {
        write_item(items, i, s, at + i * WIRE_BYTES);
    }
}

// The payload of the items, which are given in 40 bytes each, stands in the answer: so many bytes as it says.
pub fn write_payload(items: &[u8], answer: &mut [u8]) -> Result<u64, Refusal>
    ensures { Writes (items_in items.now) answer.old answer.new (bytes_reply result) }
{
    let n = lent_lists::items(items);
    if MAX_ITEMS < n {
        return Err(Refusal::BadPayload);
    }
    if !all_plain(items) {
        return Err(Refusal::BadPayload);
    }
    let at = count_bytes(n);
    let need = at + n * WIRE_BYTES;
    if answer.len() < need {
        return Err(Refusal::AnswerTooShort);
    }
    put_count(answer, n);
    write_items(items, answer, at);
    Ok(need as u64)
}
