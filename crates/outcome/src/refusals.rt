// The tests of document 01's table that calls other than opening share.
//
// A test refuses the call, or lets it go on with what it has tested: `?` makes the first that refuses the answer. Each says what all of them come to in turn, for a call that names
// nothing else: a call makes one of them, and one law (proofs/Carried, `refused`) stands for all calls. Where a step needs no fact of what was tested, it takes the number.
ghost use Rattle.std.specs.Prelude.{◌≡◌, [], ◌∷◌, MatchResult, IfOk};
ghost use Rattle.store.specs.Image.{SoundStore};
ghost use Rattle.outcome.specs.declared.refusal.Refusal.TheVariants.{NotSound};
ghost use Rattle.outcome.specs.Refusals.{refusal_in};
ghost use Rattle.outcome.specs.Tests.{of_parents, in_turn};
ghost use Rattle.outcome.specs.Lent.{Lent};

use super::{Refusal, need};
use ident::connection::Connection;
use machine::clock::Clock;
use machine::limits::MAX_PARENTS;

// Bytes that the answer of a call needs that lists keys, but those whose need is named: a key, and its parents.
pub const KEYS_ANSWER: usize = (1 + MAX_PARENTS) * lent_lists::KEY;

// The test that comes first: whether the bytes, as far as their need, write a sound state.
pub fn of_store(s: &[u8]) -> Result<(), Refusal>
    ensures { MatchResult result (λ _. SoundStore s.now) (λ e. (e ≡ NotSound) × (SoundStore s.now → ⊥)) }
{
    if sound::sound(s) {
        return Ok(());
    }
    Err(Refusal::NotSound)
}

pub fn of_connection(n: u64) -> Result<Connection, Refusal>
    ensures test { refusal_in result ≡ in_turn (n ∷ []) [] 0 0 0 }
    ensures given { IfOk result (λ connection. connection.number ≡ n) }
{
    Connection::new(n).ok_or(Refusal::NoConnection)
}

pub fn of_clock(time: u64) -> Result<Clock, Refusal>
    ensures test { refusal_in result ≡ in_turn [] (time ∷ []) 0 0 0 }
    ensures given { IfOk result (λ clock. clock.time ≡ time) }
{
    Clock::new(time).ok_or(Refusal::NowTooLate)
}

// Of a call that names both.
pub fn of_connection_and_clock(n: u64, time: u64) -> Result<(Connection, Clock), Refusal>
    ensures test { refusal_in result ≡ in_turn (n ∷ []) (time ∷ []) 0 0 0 }
    ensures given { IfOk result (λ named. (named.0.number ≡ n) × (named.1.time ≡ time)) }
{
    let connection = of_connection(n)?;
    let clock = of_clock(time)?;
    Ok((connection, clock))
}

// Of a call that is given so many parents.
fn of_parents(count: usize) -> Result<(), Refusal>
    ensures { refusal_in result ≡ of_parents count }
{
    if count > MAX_PARENTS {
        return Err(Refusal::TooManyParents);
    }
    Ok(())
}

// Of an answer buffer of so many bytes, where so many may be needed. (Two numbers: a call has them for this one test, and a pair of them would be made and taken apart at once.)
pub fn of_buffer(length: usize, needs: usize) -> Result<(), Refusal>
    ensures { refusal_in result ≡ in_turn [] [] 0 length needs }
{
    if length < needs {
        return Err(Refusal::AnswerTooShort);
    }
    Ok(())
}

// Of a call that names a clock and has an answer buffer.
pub fn of_clock_and_buffer(time: u64, length: usize, needs: usize) -> Result<Clock, Refusal>
    ensures test { refusal_in result ≡ in_turn [] (time ∷ []) 0 length needs }
    ensures given { IfOk result (λ clock. clock.time ≡ time) }
{
    let clock = of_clock(time)?;
    of_buffer(length, needs)?;
    Ok(clock)
}

// Tests 4 to 7 of a call that has all that they look at. What it has none of is 0, as in the law: no parents, or a buffer of which nothing is needed.
pub fn in_turn(
    n: u64,
    time: u64,
    parents: usize,
    length: usize,
    needs: usize,
) -> Result<(Connection, Clock), Refusal>
    ensures test { refusal_in result ≡ in_turn (n ∷ []) (time ∷ []) parents length needs }
    ensures given { IfOk result (λ named. (named.0.number ≡ n) × (named.1.time ≡ time)) }
{
    let named = of_connection_and_clock(n, time)?;
    of_parents(parents)?;
    of_buffer(length, needs)?;
    Ok(named)
}

// The bytes that a sound store needs for its L and Q: those that a call is lent, as `&mut s[..n]`. (A function that lends them would need a clause for the bytes behind them,
// which the cut at the call says of itself.)
pub fn need_of(s: &[u8]) -> usize
    requires { SoundStore s.now }
    ensures { Lent s.now result }
{
    let l = store::head::limit(s);
    let q = store::head::places(s);
    need(l, q)
}
