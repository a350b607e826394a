// Arguments given in parts, as C has them: a candidate, whose flag is a bool, and a key by the number of its kind and its bytes. (A Wtxid is
// made of its bytes where it is given, by two constructors.)
ghost use Rattle.std.specs.Prelude.{◌≡◌};
ghost use Rattle.ident.specs.Words.{key_num};
ghost use Rattle.requests.specs.Changes.{candidate_of};
ghost use Rattle.ident.specs.Number.{kind_is};
ghost use Rattle.crossing.specs.Arguments.{candidate_in, key_given};

use ident::HASH_BYTES;

// One announcement from its parts, the item by its type number.
pub fn candidate(
    connection: u64,
    item_type: u32,
    hash: &[u8; HASH_BYTES],
    ready: u64,
    preferred: bool,
    priority: u64,
) -> requests::Candidate
    ensures { candidate_of result ≡ candidate_in connection item_type hash.now ready preferred priority }
{
    let kind = ident::ItemKind::from(item_type);
    let hash = ident::Hash::from(hash);
    let item = ident::Item { kind, hash };
    requests::Candidate {
        connection,
        item,
        ready,
        preferred,
        priority,
    }
}

// A key, its kind by its number as answer buffers have it.
pub fn key_given(kind: u64, hash: &[u8; HASH_BYTES]) -> ident::Key
    ensures { key_num result ≡ key_given kind hash.now }
{
    let kind = ident::Kind::from(kind);
    let hash = ident::Hash::from(hash);
    ident::Key { kind, hash }
}
