// The rows of a hash, found once in a call and handed on: those of its Txid key and those of its Wtxid key.
ghost use Rattle.std.specs.Prelude.{◌≡◌};
ghost use Rattle.ident.specs.Words.{hash_num};
ghost use Rattle.machine.specs.Table.{held_at, is_candidate};
ghost use Rattle.store.specs.Shown.{Kept};
ghost use Rattle.requests.specs.Changes.{Tells};
ghost use Rattle.requests.specs.Windows.{Windowed, of_kind};

use crate::Window;

#[derive(Clone, Copy)]
pub struct Windows {
    pub txid: Window,
    pub wtxid: Window,
}

impl Windows {
    // Those of the hash's key of the kind k.
    pub fn of_kind(self, k: ident::Kind) -> Window
        ensures { result ≡ of_kind self k }
    {
        match k {
            ident::Kind::Txid => self.txid,
            ident::Kind::Wtxid => self.wtxid,
        }
    }
}

// Where the rows of the hash h stand.
pub fn windows_of(s: &[u8], h: ident::Hash) -> Windows
    requires { Kept s.now }
    ensures { Windowed s.now (hash_num h) result }
{
    let a = ident::Key::from(ident::Txid(h));
    let b = ident::Key::from(ident::Wtxid(h));
    Windows {
        txid: crate::window_of(s, regions::Key::from(a)),
        wtxid: crate::window_of(s, regions::Key::from(b)),
    }
}

// How many candidates the hash h has, over both kinds.
pub fn candidates_in(s: &[u8], h: ident::Hash, w: Windows) -> usize
    requires { Kept s.now × Windowed s.now (hash_num h) w }
    ensures { Tells s.now (λ t. result ≡ held_at (hash_num h) t) }
{
    w.txid.len() + w.wtxid.len()
}

// Whether the connection n is a candidate at the hash h, under either kind.
pub fn is_candidate_in(s: &[u8], h: ident::Hash, w: Windows, n: u64) -> bool
    requires { Kept s.now × Windowed s.now (hash_num h) w }
    ensures { Tells s.now (λ t. result ≡ is_candidate n (hash_num h) t) }
{
    store::rows::find_row(s, w.txid, n).is_some() || store::rows::find_row(s, w.wtxid, n).is_some()
}
