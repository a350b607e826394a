// The lists that the program keeps between lines: the last carried-out plan, take and arrangement.
//
// Contracts see a list as its entries, and the three of them as a record of lists: how they stand in bytes, and that what is arranged ascends by connection, is said here alone.
ghost use Rattle.std.specs.Prelude.{◌≡◌, ◌*◌, ◌≤◌, List, [], length};
ghost use Rattle.machine.specs.State.{Entry};
ghost use Rattle.machine.specs.Call.{entry_bytes};
ghost use Rattle.claiming.specs.Claiming.{entries_from, entries_in};
ghost use Rattle.sending.specs.Parts.{connections_in};
ghost use Rattle.regions.specs.Order.{Sorted};
ghost use Rattle.printing.specs.Given.{answer_room, most_entries};
ghost use Rattle.printing.specs.Kept.{KeptLists, no_lists};
ghost use Rattle.keeping.specs.Steps.{Listable, entries_with, planned_with, EntriesKept, SelectionKept};

use claiming::entries::ENTRY_BYTES;
use printing::buffers::ANSWER;
use printing::numbers::refusal;
use public_plans::Selection;
use std::marker::Model;

// Bytes of the entries that an answer buffer of this program has room for.
const ROOM: usize = ANSWER / ENTRY_BYTES * ENTRY_BYTES;

// A list: `count` entries at the front of its bytes, as calls take and give them.
#[derive(Drop)]
pub struct EntryList {
    count: usize,
    bytes: [u8; ROOM],
}

impl Model for EntryList {
    ghost Value = { List Entry };

    ghost view = { λ l. entries_from l.bytes 0 l.count };

    ghost invariant = { λ l. l.count ≤ most_entries };
}

impl EntryList {
    pub fn none() -> EntryList
        ensures { result ≡ [] }
    {
        EntryList {
            count: 0,
            bytes: [0u8; ROOM],
        }
    }

    // None is listed any more. (The count alone says so: what stands behind it is no part of the list.)
    fn clear(&mut self)
        ensures { self.new ≡ [] }
    {
        self.count = 0;
    }

    pub fn bytes(&self) -> &[u8]
        ensures entries { entries_in result.now ≡ self.now }
        ensures few { length result.now ≤ entry_bytes * most_entries }
    {
        let end = self.count * ENTRY_BYTES;
        &self.bytes[..end]
    }

    // The first n entries of the answer are the list now. n is no length: the answer buffer is longer than what the reply lists.
    fn keep(&mut self, answer: &[u8], n: usize)
        requires { (n ≤ most_entries) × (entry_bytes * n ≤ length answer.now) }
        ensures { self.new ≡ entries_from answer.now 0 n }
    {
        let end = n * ENTRY_BYTES;
        self.count = n;
        self.bytes[..end].copy_from_slice(&answer[..end]);
    }

    // The reply of a take or of an arrangement as text. Entries that it lists become the list.
    pub fn keep_entries<E>(&mut self, out: &mut [u8], answer: &[u8], a: Result<u64, E>) -> usize
    where
        u64: From<E>,
        requires { (answer_room ≤ length out.old) × Listable (entries_with 0 a answer.now) answer.now }
        ensures { EntriesKept ⟦<u64 as From<E>>⟧.from_gives a answer.now self.old self.new out.old out.new result }
    {
        match a {
            Ok(n) => {
                self.keep(answer, n as usize);
                printing::entries::put_entries(out, answer, 0, n as usize)
            }
            Err(cause) => refusal(out, u64::from(cause)),
        }
    }

    // The reply of a plan as text. What it has selected becomes the list. (As `keep_entries`: each has its own reply, its own text of it, and its own reading of what is kept in
    // its contract, and they share `keep` and `refusal`.)
    pub fn keep_selection<E>(
        &mut self,
        out: &mut [u8],
        answer: &[u8],
        a: Result<Selection, E>,
    ) -> usize
    where
        u64: From<E>,
        requires { (answer_room ≤ length out.old) × Listable (planned_with 0 a answer.now) answer.now }
        ensures { SelectionKept ⟦<u64 as From<E>>⟧.from_gives a answer.now self.old self.new out.old out.new result }
    {
        match a {
            Ok(plan) => {
                let n = plan.chosen as usize;
                self.keep(answer, n);
                printing::entries::put_selection(out, answer, plan.considered, n, plan.next)
            }
            Err(cause) => refusal(out, u64::from(cause)),
        }
    }
}

// The three of them. What is arranged ascends by connection.
#[derive(Drop)]
pub struct Lists {
    pub(crate) plan: EntryList,
    pub(crate) taken: EntryList,
    pub(crate) arranged: EntryList,
}

impl Model for Lists {
    ghost Value = { KeptLists };

    ghost view = { λ l. record { plan = l.plan; taken = l.taken; arranged = l.arranged } };

    ghost invariant = { λ l. Sorted (connections_in l.arranged) };
}

impl Lists {
    // The three of them as one. (Public, as `EntryList::none` is, so that who keeps lists of its own can make them.)
    pub fn of(plan: EntryList, taken: EntryList, arranged: EntryList) -> Lists
        requires { Sorted (connections_in arranged) }
        ensures { result ≡ record { plan = plan; taken = taken; arranged = arranged } }
    {
        Lists {
            plan,
            taken,
            arranged,
        }
    }

    pub fn none() -> Lists
        ensures { result ≡ no_lists }
    {
        Lists::of(EntryList::none(), EntryList::none(), EntryList::none())
    }

    // None of the three lists anything any more: as `none`, of which a new one would be 36 KB to write.
    pub fn clear(&mut self)
        ensures { self.new ≡ no_lists }
    {
        self.plan.clear();
        self.taken.clear();
        self.arranged.clear();
    }

    // The last plan that was carried out; what was taken; what was arranged. (So that who keeps the lists can read them: `EntryList::bytes`.)
    pub fn plan(&self) -> &EntryList
        ensures { result.now ≡ self.now.plan }
    {
        &self.plan
    }

    pub fn taken(&self) -> &EntryList
        ensures { result.now ≡ self.now.taken }
    {
        &self.taken
    }

    pub fn arranged(&self) -> &EntryList
        ensures { result.now ≡ self.now.arranged }
    {
        &self.arranged
    }
}
