// What lines ask for.
ghost use Rattle.std.specs.Prelude.{◌≡◌, ◌+◌};
ghost use Rattle.std.proofs.Math.Option.{some};
ghost use Rattle.machine.specs.Fields.{rest, ending};
ghost use Rattle.machine.specs.Call.{On, Sum};
ghost use Rattle.asking.specs.Calls.{open_of, number_form, keys_form, hashes_form, line_with, line_of};
ghost use Rattle.reading.specs.Line.{Asks};
ghost use Rattle.reading.specs.Given.{FormRead, WholeRead};
ghost use Rattle.asking.specs.Given.{asked_in};

use crate::vocabulary::{HashesWord, KeysWord, NumberWord, Word, word_of};
use reading::fields::{Parsed, number_at};
use reading::forms::{Values, read_form, read_whole};

// What a readable line asks for; an opening with its L and Q. A list stands behind the comma at an index: it is read where its call is carried out. (Values and index side by
// side, no `Parsed` of one: who carries the call out hands the index to the list's reader and the values to the call.)
#[derive(Clone, Copy)]
pub enum Asked {
    Opening(u64, u64),
    Summing,
    Leaving(Values),
    Offers(Values, usize),
    Planning(Values),
    Wanting(Values, usize),
    Missing(Values, usize),
    Taking(Values),
    Sending(usize),
    Parting(Values),
    Number(NumberWord, Values),
    Keys(KeysWord, Values),
    Hashes(HashesWord, Values, usize),
}

// The most that a line may open for.
pub const MOST_ANNOUNCEMENTS: u64 = 100;

pub const MOST_PLACES: u64 = 2;

// An opening, whose fields stand behind the comma at index e.
fn opening(line: &[u8], e: usize) -> Option<Asked>
    ensures { asked_in line.now result ≡ open_of (rest line.now (e + 1)) }
{
    let limit = number_at(line, e)?;
    let places = number_at(line, limit.end)?.last(line)?;
    if MOST_ANNOUNCEMENTS < limit.value {
        return None;
    }
    if MOST_PLACES < places {
        return None;
    }
    Some(Asked::Opening(limit.value, places))
}

fn summing(line: &[u8], e: usize) -> Option<Asked>
    ensures { asked_in line.now result ≡ ending (some (Asks (On Sum))) (rest line.now (e + 1)) }
{
    if e < line.len() {
        return None;
    }
    Some(Asked::Summing)
}

// The fields behind the comma at index e, in the form of the word. (A reader in each arm: a match from words to the texts of forms would be a table in the program's data, where
// none may stand.)
fn number_values(line: &[u8], e: usize, w: NumberWord) -> Option<Values>
    ensures { WholeRead line.now e (number_form w) result }
{
    match w {
        NumberWord::Announce | NumberWord::RequestParent => read_whole(line, e, b"cirpq"),
        NumberWord::Failed | NumberWord::FailedPackageInfo => read_whole(line, e, b"kcn"),
        NumberWord::Unclaim => read_whole(line, e, b"kc"),
        NumberWord::Forget => read_whole(line, e, b"k"),
        NumberWord::ForgetKnown | NumberWord::PackageInfoOwner => read_whole(line, e, b"kn"),
        NumberWord::Teardown | NumberWord::PollGate => read_whole(line, e, b"n"),
        NumberWord::ResponseCompleted => read_whole(line, e, b"chmn"),
    }
}

fn keys_values(line: &[u8], e: usize, w: KeysWord) -> Option<Values>
    ensures { WholeRead line.now e (keys_form w) result }
{
    match w {
        KeysWord::Sweep => read_whole(line, e, b""),
        KeysWord::FailedWithParents => read_whole(line, e, b"kcn"),
        KeysWord::ReleasePackage => read_whole(line, e, b"chn"),
    }
}

fn hashes_values(line: &[u8], e: usize, w: HashesWord) -> Option<Parsed<Values>>
    ensures { FormRead line.now e (hashes_form w) result }
{
    match w {
        HashesWord::SolicitPackageInfo => read_form(line, e, b"chn"),
        HashesWord::ClaimPackage => read_form(line, e, b"chmn"),
        HashesWord::BeginPackageResolution => read_form(line, e, b"chmn"),
        HashesWord::AnnounceParents | HashesWord::FailedPackageClaims => read_form(line, e, b"cn"),
        HashesWord::OwnersOf => read_form(line, e, b""),
    }
}

// The line of a word, whose fields stand behind the comma at index e.
fn call_with(line: &[u8], e: usize, w: Word) -> Option<Asked>
    ensures { asked_in line.now result ≡ line_with w (rest line.now (e + 1)) }
{
    match w {
        Word::Open => opening(line, e),
        Word::Sum => summing(line, e),
        Word::Leave => read_whole(line, e, b"cn").map(Asked::Leaving),
        Word::Inventory => read_form(line, e, b"cnps").map(|t| Asked::Offers(t.value, t.end)),
        Word::Plan => read_whole(line, e, b"n").map(Asked::Planning),
        Word::Want => read_form(line, e, b"n").map(|t| Asked::Wanting(t.value, t.end)),
        Word::Take => read_whole(line, e, b"n").map(Asked::Taking),
        Word::Missing => read_form(line, e, b"cn").map(|t| Asked::Missing(t.value, t.end)),
        Word::Send => Some(Asked::Sending(e)),
        Word::Part => read_whole(line, e, b"c").map(Asked::Parting),
        Word::Number(x) => number_values(line, e, x).map(|v| Asked::Number(x, v)),
        Word::Keys(x) => keys_values(line, e, x).map(|v| Asked::Keys(x, v)),
        Word::Hashes(x) => hashes_values(line, e, x).map(|t| Asked::Hashes(x, t.value, t.end)),
    }
}

// What a line asks for, if it is readable.
pub fn call_of(line: &[u8]) -> Option<Asked>
    ensures { asked_in line.now result ≡ line_of line.now }
{
    let e = lines::read::field_end(line, 0);
    let w = word_of(&line[..e])?;
    call_with(line, e, w)
}
