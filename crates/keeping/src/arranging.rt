// What was taken, arranged for sending (`send`), and one connection's part of it (`part`).
ghost use Rattle.std.proofs.Math.Option.{some};
ghost use Rattle.std.specs.Prelude.{◌≡◌, ◌+◌, ◌≤◌, length, MatchResult};
ghost use Rattle.words.specs.Words.{words};
ghost use Rattle.regions.specs.Order.{Sorted};
ghost use Rattle.machine.specs.Claim.{part_of};
ghost use Rattle.sending.specs.Parts.{connections_in};
ghost use Rattle.machine.specs.Fields.{rest};
ghost use Rattle.reading.specs.Line.{Send, Part};
ghost use Rattle.reading.specs.Lists.{send_line};
ghost use Rattle.printing.specs.Replies.{listed, entry_texts};
ghost use Rattle.printing.specs.Given.{line_room, answer_room, Printed};
ghost use Rattle.printing.specs.Answers.{Answered};
ghost use Rattle.store.specs.Image.{SoundStore};
ghost use Rattle.keeping.specs.Steps.{PartRefused};

use crate::kept::{EntryList, Lists};
use ident::connection::Connection;
use outcome::{Refusal, refusals};
use printing::buffers::answer_buffer;
use printing::numbers::{refusal, unreadable};

// Arranges what was taken, for the witness connections, of 8 bytes each.
fn arrange_taken(store: &[u8], lists: &mut Lists, out: &mut [u8], witnesses: &[u8]) -> usize
    requires { answer_room ≤ length out.old }
    ensures { Answered (some (Send (words witnesses.now))) lists.old lists.new store.now store.now out.old out.new result }
{
    let mut answer = answer_buffer();
    let a = public_plans::arrangements::arrange(store, witnesses, lists.taken.bytes(), &mut answer);
    lists.arranged.keep_entries(out, &answer, a)
}

// The step on a line whose witness connections stand behind the comma at index e.
pub fn answer_send(store: &[u8], lists: &mut Lists, line: &[u8], out: &mut [u8], e: usize) -> usize
    requires { (answer_room ≤ length out.old) × (length line.now ≤ line_room) }
    ensures { Answered (send_line (rest line.now (e + 1))) lists.old lists.new store.now store.now out.old out.new result }
{
    let mut buffer = inventory::numbers::number_buffer();
    let Some(witnesses) = inventory::numbers::read_list(line, e, &mut buffer) else {
        return unreadable(out);
    };
    arrange_taken(store, lists, out, witnesses)
}

// One connection's part of an arranged list.
fn put_part(out: &mut [u8], list: &EntryList, connection: u64) -> usize
    requires { Sorted (connections_in list.now) × (answer_room ≤ length out.old) }
    ensures { Printed out.old out.new (listed (entry_texts (part_of connection list.now))) result }
{
    let entries = list.bytes();
    let p = public_plans::arrangements::part(entries, connection);
    printing::entries::put_entries(out, entries, p.first, p.count)
}

// Tests 3 and 4, as of a call that names the connection.
fn of_part(store: &[u8], connection: u64) -> Result<Connection, Refusal>
    ensures { MatchResult result (λ named. SoundStore store.now × (named.number ≡ connection)) (PartRefused store.now connection) }
{
    refusals::of_store(store)?;
    refusals::of_connection(connection)
}

pub fn answer_part(store: &[u8], lists: &Lists, out: &mut [u8], connection: u64) -> usize
    requires { answer_room ≤ length out.old }
    ensures { Answered (some (Part connection)) lists.now lists.now store.now store.now out.old out.new result }
{
    match of_part(store, connection) {
        Ok(connection) => put_part(out, &lists.arranged, connection.number),
        Err(cause) => refusal(out, u64::from(cause)),
    }
}
