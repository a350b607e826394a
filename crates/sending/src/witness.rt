// "A taken t item of a marked request turns v for a witness connection" (document 01, "Sending").
ghost use Rattle.std.specs.Prelude.{◌≡◌, ◌+◌, ◌*◌, ◌≤◌, length};
ghost use Rattle.ident.specs.Words.{key_num};
ghost use Rattle.words.specs.Words.{words};
ghost use Rattle.machine.specs.Call.{entry_bytes};
ghost use Rattle.machine.specs.Claim.{elem};
ghost use Rattle.machine.specs.Table.{at};
ghost use Rattle.store.specs.Shown.{Kept};
ghost use Rattle.requests.specs.Changes.{Tells};
ghost use Rattle.claiming.specs.Claiming.{entry_of};
ghost use Rattle.sending.specs.Turned.{is_transaction, Holds, Turned, PutTurned};

// A connection, and whether it is a witness connection. Both are always known, and are remembered from one entry to the next, since those of a connection are sent
// together.
#[derive(Clone, Copy)]
pub struct Witness {
    pub connection: u64,
    pub listed: bool,
}

// An entry as it is sent, and what is known after it.
#[derive(Clone, Copy)]
pub struct Sent {
    pub entry: claiming::Entry,
    pub known: Witness,
}

// Whether the request at k has the fallback mark.
fn marked(s: &[u8], k: ident::Key) -> bool
    requires { Kept s.now }
    ensures { Tells s.now (λ t. result ≡ (at (key_num k) t).fallback) }
{
    let w = requests::window_of(s, regions::Key::from(k));
    requests::mark_in(s, w.from, w.to)
}

// Whether the connection is one of the list, which has a word for each.
pub fn listed(list: &[u8], connection: u64) -> bool
    ensures { result ≡ elem connection (words list.now) }
{
    (0..list.len() / 8).any(|i| words::get(list, i) == connection)
}

// The same, looked up if it is not known.
fn look_up(list: &[u8], known: Witness, connection: u64) -> Witness
    requires { Holds list.now known }
    ensures { (result.connection ≡ connection) × (result.listed ≡ elem connection (words list.now)) }
{
    if known.connection == connection {
        return known;
    }
    Witness {
        connection,
        listed: listed(list, connection),
    }
}

// (The derived test, which by this clause is that of the definition.)
fn is_transaction(k: ident::ItemKind) -> bool
    ensures { result ≡ is_transaction k }
{
    k == ident::ItemKind::Transaction
}

// The entry as it is sent. Only a t item is looked up: any other stays what it is.
fn for_witness(s: &[u8], witnesses: &[u8], known: Witness, e: claiming::Entry) -> Sent
    requires { Kept s.now × Holds witnesses.now known }
    ensures { Turned s.now witnesses.now (entry_of e) result }
{
    if !is_transaction(e.candidate.item.kind) || !marked(s, e.key) {
        return Sent { entry: e, known };
    }
    let asked = look_up(witnesses, known, e.candidate.connection);
    if !asked.listed {
        return Sent {
            entry: e,
            known: asked,
        };
    }
    let item = ident::Item {
        kind: ident::ItemKind::WitnessTransaction,
        hash: e.candidate.item.hash,
    };
    Sent {
        entry: claiming::Entry {
            candidate: requests::Candidate {
                item,
                ..e.candidate
            },
            ..e
        },
        known: asked,
    }
}

// Writes the j-th entry of the list as it is sent, as the i-th of the answer. Answers what is known then.
// (Store, entries, witness connections and answer are lent apart; no step keeps two of them together.)
pub fn put_turned(
    s: &[u8],
    list: &[u8],
    j: usize,
    witnesses: &[u8],
    known: Witness,
    out: &mut [u8],
    i: usize,
) -> Witness
    requires { Kept s.now × (entry_bytes * j + entry_bytes ≤ length list.now) × (entry_bytes * i + entry_bytes ≤ length out.old) × Holds witnesses.now known }
    ensures { PutTurned s.now list.now j witnesses.now out.old out.new i result }
{
    let e = claiming::entries::entry_in(list, j);
    let sent = for_witness(s, witnesses, known, e);
    claiming::entries::put_entry(out, i, sent.entry);
    sent.known
}
