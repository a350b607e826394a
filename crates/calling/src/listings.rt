// Calls whose reply is a list of keys, carried out, and their keys as text.
ghost use Rattle.std.specs.Prelude.{◌≡◌, ◌≤◌, length};
ghost use Rattle.machine.specs.Call.{On};
ghost use Rattle.outcome.specs.Outcome.{LeavesWith};
ghost use Rattle.outcome.specs.Reply.{listing_of};
ghost use Rattle.std.proofs.Math.Option.{some};
ghost use Rattle.reading.specs.Line.{Asks};
ghost use Rattle.asking.specs.Calls.{answer_buffer, keys_ask};
ghost use Rattle.reading.specs.Given.{values_of};
ghost use Rattle.printing.specs.Given.{answer_room};
ghost use Rattle.printing.specs.Answers.{Keeping};

use asking::vocabulary::KeysWord;
use outcome::Refusal;
use printing::keys::listing;
use reading::forms::Values;

fn carry_out(store: &mut [u8], w: KeysWord, v: Values, answer: &mut [u8]) -> Result<u64, Refusal>
    requires { answer.old ≡ answer_buffer }
    ensures { LeavesWith (On (keys_ask w (values_of v))) store.old store.new answer.new (listing_of result) }
{
    let key = ident::Key::from(v);
    let subject = ident::Wtxid(ident::Hash::from(v.hash));
    match w {
        KeysWord::Sweep => public_requests::sweeps::sweep(store, answer),
        KeysWord::FailedWithParents => {
            public_requests::failures::failed_with_parents(
                store,
                key,
                v.connection,
                v.clock,
                answer,
            )
        }
        KeysWord::ReleasePackage => {
            public_packages::package_calls::release_package(
                store,
                v.connection,
                subject,
                v.clock,
                answer,
            )
        }
    }
}

pub fn answer_keys(store: &mut [u8], out: &mut [u8], w: KeysWord, v: Values) -> usize
    requires { answer_room ≤ length out.old }
    ensures { Keeping (some (Asks (On (keys_ask w (values_of v))))) store.old store.new out.old out.new result }
{
    let mut answer = printing::buffers::answer_buffer();
    let a = carry_out(store, w, v, &mut answer);
    listing(out, &answer, a)
}
