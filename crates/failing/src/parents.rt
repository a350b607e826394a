// The parents of a request, copied out of its place: announcing them changes the store that they stand in.
ghost use Rattle.std.specs.Prelude.{◌≡◌, ◌*◌, ◌≤◌, ◌<◌, length};
ghost use Rattle.ident.specs.Words.{hash_bytes, key_num};
ghost use Rattle.places.specs.Places.{list_most};
ghost use Rattle.machine.specs.Table.{at};
ghost use Rattle.machine.specs.Fail as machine;
ghost use Rattle.machine.specs.Limits.{max_parents};
ghost use Rattle.lent_lists.specs.Lists.{hashes_in};
ghost use Rattle.store.specs.Shown.{held_places_in, Kept};
ghost use Rattle.requests.specs.Changes.{Tells};
ghost use Rattle.package_stages.specs.Changes.{ReadAt};

use ident::connection::Connection;

// Copies the parents of the i-th place to the front of `list`, 32 bytes each, and gives that part of it.
fn copy_parents<'a>(s: &[u8], i: usize, list: &'a mut [u8]) -> &'a [u8]
    requires { Kept s.now × (i < held_places_in s.now) × (hash_bytes * list_most ≤ length list.old) }
    ensures { (length (hashes_in result.now) ≤ max_parents) × ReadAt s.now i (λ q. hashes_in result.now ≡ q.parents) }
{
    let n = package_stages::parents(s, i);
    for j in 0..n {
        let h = package_stages::parent_at(s, i, j);
        ident::put_hash(list, j * ident::HASH_BYTES, h);
    }
    &list[..n * ident::HASH_BYTES]
}

// The parents beside the flag or package of the request at k, if n owns it: copied to the front of `list`, 32 bytes each.
pub fn parents_for<'a>(s: &[u8], k: ident::Key, n: Connection, list: &'a mut [u8]) -> &'a [u8]
    requires { Kept s.now × (hash_bytes * list_most ≤ length list.old) }
    ensures { (length (hashes_in result.now) ≤ max_parents) × Tells s.now (λ t. hashes_in result.now ≡ machine.parents_for n.number (at (key_num k) t)) }
{
    let r = package_stages::request_at(s, k);
    if !r.is_owned_by(n.number) {
        return &[];
    }
    if r.stage.is_none() {
        return &[];
    }
    match package_stages::seek(s, k.hash) {
        Ok(i) => copy_parents(s, i, list),
        Err(_) => &[],
    }
}
