// read_payload and write_payload, for C and Rust: they take no store. A call that is refused hands nothing out.
ghost use Rattle.lent_lists.specs.Items.{items_in};
ghost use Rattle.crossing.specs.Payloads.{HandsItems, HandsBytes};

use crossing::hand_out;

// The items of a whole inv, getdata or notfound payload stand in the answer in 40 bytes each: so many as `count` says. They can be given to
// tracker_announce_transactions and tracker_transaction_not_found as they stand there. It takes no store.
#[unsafe(no_mangle)]
pub extern "C" fn tracker_read_payload(payload: &[u8], answer: &mut [u8], count: &mut u64) -> u64
    ensures { HandsItems payload.now answer.old answer.new result count.old count.new }
{
    let a = wire::read_payload(payload, answer);
    hand_out(a, count)
}

// The payload of the items, which are given in 40 bytes each, stands in the answer: so many bytes as `written` says. An item whose type's word is 2^32 or more is an
// other item of the type that its low 32 bits are, and is refused if that is 1, 5 or 0x40000001. It takes no store.
#[unsafe(no_mangle)]
pub extern "C" fn tracker_write_payload(items: &[u8], answer: &mut [u8], written: &mut u64) -> u64
    ensures { HandsBytes (items_in items.now) answer.old answer.new result written.old written.new }
{
    let a = wire::write_payload(items, answer);
    hand_out(a, written)
}
