// Numbers and hashes compared with one another: whether one occurs among others, whether none comes twice.
ghost use Rattle.std.specs.Prelude.{◌≡◌, ◌*◌, ◌≤◌, length, take};
ghost use Rattle.ident.specs.Words.{hash_bytes};
ghost use Rattle.machine.specs.Claim.{elem};
ghost use Rattle.machine.specs.SoundTest.{no_repeat};
ghost use Rattle.reading.specs.Given.{hashes_of};

// (A function: by its clause `contains` is the definition's `elem`.)
pub fn stands(list: &[u64], x: u64) -> bool
    ensures { result ≡ elem x list.now }
{
    list.contains(&x)
}

pub fn all_distinct(list: &[u64]) -> bool
    ensures { result ≡ no_repeat list.now }
{
    (0..list.len()).all(|i| !stands(&list[..i], list[i]))
}

// Whether the first n hashes of bytes are distinct. (Bytes of n hashes alone would ask for exactly so many; more may stand there.)
pub fn hashes_distinct(s: &[u8], n: usize) -> bool
    requires { hash_bytes * n ≤ length s.now }
    ensures { result ≡ no_repeat (hashes_of n s.now) }
{
    (0..n).all(|i| !lent_lists::occurs_before(s, i))
}
