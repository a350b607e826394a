// Calls with a list of hashes: the list read from the line, the call carried out, its reply as text.
ghost use Rattle.std.specs.Prelude.{◌+◌, ◌≤◌, length};
ghost use Rattle.machine.specs.Call.{On};
ghost use Rattle.lent_lists.specs.Lists.{hashes_in};
ghost use Rattle.machine.specs.Fields.{rest};
ghost use Rattle.reading.specs.Lists.{list_call};
ghost use Rattle.asking.specs.Calls.{hashes_ask};
ghost use Rattle.reading.specs.Given.{values_of};
ghost use Rattle.printing.specs.Given.{line_room, answer_room, Carried};
ghost use Rattle.printing.specs.Answers.{Keeping};

use asking::vocabulary::HashesWord;
use printing::numbers::{number, unreadable};
use reading::forms::Values;
use reading::hashes::{hash_buffer, read_list};

fn carry_out(store: &mut [u8], out: &mut [u8], w: HashesWord, v: Values, hashes: &[u8]) -> usize
    requires { answer_room ≤ length out.old }
    ensures { Carried (On (hashes_ask w (values_of v) (hashes_in hashes.now))) store.old store.new out.old out.new result }
{
    let n = v.connection;
    let subject = ident::Wtxid(ident::Hash::from(v.hash));
    let combined = ident::Hash::from(v.combined);
    let clock = v.clock;
    match w {
        HashesWord::SolicitPackageInfo => number(
            out,
            public_packages::package_info::solicit_package_info(store, n, subject, hashes, clock),
        ),
        HashesWord::ClaimPackage => number(
            out,
            public_packages::package_calls::claim_package(
                store, n, subject, combined, hashes, clock,
            ),
        ),
        HashesWord::BeginPackageResolution => number(
            out,
            public_packages::package_calls::begin_package_resolution(
                store, n, subject, combined, hashes, clock,
            ),
        ),
        HashesWord::AnnounceParents => {
            crate::parents::announce_parents(store, out, n, hashes, clock)
        }
        HashesWord::FailedPackageClaims => {
            crate::parents::failed_package_claims(store, out, n, hashes, clock)
        }
        HashesWord::OwnersOf => crate::ownership::owners_of(store, out, hashes),
    }
}

// The step on a line whose list of hashes stands behind the comma at index e.
pub fn answer_hashes(
    store: &mut [u8],
    line: &[u8],
    out: &mut [u8],
    w: HashesWord,
    v: Values,
    e: usize,
) -> usize
    requires { (answer_room ≤ length out.old) × (length line.now ≤ line_room) }
    ensures { Keeping (list_call (hashes_ask w (values_of v)) (rest line.now (e + 1))) store.old store.new out.old out.new result }
{
    let mut buffer = hash_buffer();
    let Some(hashes) = read_list(line, e, &mut buffer) else {
        return unreadable(out);
    };
    carry_out(store, out, w, v, hashes)
}
