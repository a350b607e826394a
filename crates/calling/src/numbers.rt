// Calls whose reply is a number, and `sum`, carried out, and their replies as text.
ghost use Rattle.std.specs.Prelude.{◌≤◌, ◌≡◌, length};
ghost use Rattle.std.proofs.Math.Option.{some};
ghost use Rattle.regions.specs.Rows.{quad_number};
ghost use Rattle.machine.specs.Call.{On, TransactionResponseCompleted, Sum};
ghost use Rattle.requests.specs.Changes.{candidate_of};
ghost use Rattle.outcome.specs.Outcome.{Leaves};
ghost use Rattle.outcome.specs.Reply.{reply_of};
ghost use Rattle.reading.specs.Line.{Asks};
ghost use Rattle.reading.specs.Forms.{candidate_in};
ghost use Rattle.reading.specs.Given.{values_of};
ghost use Rattle.asking.specs.Calls.{number_ask};
ghost use Rattle.printing.specs.Given.{answer_room};
ghost use Rattle.printing.specs.Answers.{Keeping};

use asking::vocabulary::NumberWord;
use outcome::Refusal;
use printing::numbers::{figures, number, refusal};
use reading::forms::Values;

pub fn answer_sum(store: &[u8], out: &mut [u8]) -> usize
    requires { answer_room ≤ length out.old }
    ensures { Keeping (some (Asks (On Sum))) store.now store.now out.old out.new result }
{
    match public_requests::sum(store) {
        Ok(f) => figures(out, f),
        Err(cause) => refusal(out, u64::from(cause)),
    }
}

// (No From: Values is reading's, which has no Candidate, so that only a function can say it here.)
fn candidate(v: Values) -> requests::Candidate
    ensures { candidate_of result ≡ candidate_in (values_of v) }
{
    let kind = v.item;
    let hash = ident::Hash::from(v.hash);
    let item = ident::Item { kind, hash };
    requests::Candidate {
        connection: v.connection,
        item,
        ready: v.ready,
        preferred: v.preferred,
        priority: v.priority,
    }
}

fn response_completed(store: &mut [u8], v: Values) -> Result<u64, Refusal>
    ensures { Leaves (On (TransactionResponseCompleted v.connection (quad_number v.hash) (quad_number v.combined) v.clock)) store.old store.new (reply_of result) }
{
    let x = ident::Txid(ident::Hash::from(v.hash));
    let w = ident::Wtxid(ident::Hash::from(v.combined));
    public_plans::wrappers::transaction_response_completed(store, v.connection, x, w, v.clock)
}

fn carry_out(store: &mut [u8], w: NumberWord, v: Values) -> Result<u64, Refusal>
    ensures { Leaves (On (number_ask w (values_of v))) store.old store.new (reply_of result) }
{
    let key = ident::Key::from(v);
    match w {
        NumberWord::Announce => public_requests::candidates::announce(store, candidate(v)),
        NumberWord::RequestParent => public_requests::candidates::request_parent(
            store,
            candidate(v),
        ),
        NumberWord::Failed => public_requests::failures::failed(store, key, v.connection, v.clock),
        NumberWord::Unclaim => public_requests::failures::unclaim(store, key, v.connection),
        NumberWord::Forget => public_requests::failures::forget(store, key),
        NumberWord::ForgetKnown => public_packages::package_claims::forget_known(
            store, key, v.clock,
        ),
        NumberWord::Teardown => {
            public_packages::package_claims::teardown_package_claims(store, v.clock)
        }
        NumberWord::FailedPackageInfo => public_packages::package_info::failed_package_info(
            store,
            key,
            v.connection,
            v.clock,
        ),
        NumberWord::PackageInfoOwner => public_packages::package_info::package_info_owner(
            store, key, v.clock,
        ),
        NumberWord::ResponseCompleted => response_completed(store, v),
        NumberWord::PollGate => public_requests::sweeps::poll_gate(store, v.clock),
    }
}

pub fn answer_number(store: &mut [u8], out: &mut [u8], w: NumberWord, v: Values) -> usize
    requires { answer_room ≤ length out.old }
    ensures { Keeping (some (Asks (On (number_ask w (values_of v))))) store.old store.new out.old out.new result }
{
    let a = carry_out(store, w, v);
    number(out, a)
}
