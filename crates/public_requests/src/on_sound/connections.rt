// counts on a sound store.
ghost use Rattle.store.specs.Image.{SoundStore};
ghost use Rattle.public_requests.specs.Counting.{counts_of, CountsOf};

use crate::Counts;
use outcome::{Refusal, refusals};

// (Two of the three numbers of an entry, told once: no `From`.)
pub fn counts(s: &[u8], connection: u64) -> Result<Counts, Refusal>
    requires { SoundStore s.now }
    ensures { CountsOf s.now connection (counts_of result) }
{
    refusals::of_connection(connection)?;
    let n = refusals::need_of(s);
    let f = requests::figures(&s[..n], connection);
    Ok(Counts {
        announced: f.held,
        owned: f.owned,
    })
}
