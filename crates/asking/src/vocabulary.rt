// The words of event lines: the first field, compared with fixed byte strings.
ghost use Rattle.std.specs.Prelude.{◌≡◌, if◌then◌else◌, Some};
ghost use Rattle.machine.specs.Fields.{same_text};
ghost use Rattle.asking.specs.Words.{word_of, request_word, package_word, keys_word, hashes_word, plan_word};

use lines::read::same;

// A call by its word.
#[derive(Clone, Copy)]
pub enum Word {
    Open,
    Sum,
    Leave,
    Inventory,
    Plan,
    Want,
    Take,
    Missing,
    Send,
    Part,
    Number(NumberWord),
    Keys(KeysWord),
    Hashes(HashesWord),
}

// The calls whose reply is a number, and whose fields are those of a form.
#[derive(Clone, Copy)]
pub enum NumberWord {
    Announce,
    RequestParent,
    Failed,
    Unclaim,
    Forget,
    ForgetKnown,
    Teardown,
    FailedPackageInfo,
    PackageInfoOwner,
    ResponseCompleted,
    PollGate,
}

// The calls whose reply is a list of keys.
#[derive(Clone, Copy)]
pub enum KeysWord {
    Sweep,
    FailedWithParents,
    ReleasePackage,
}

// The calls that take a list of hashes behind the fields of their form.
#[derive(Clone, Copy)]
pub enum HashesWord {
    SolicitPackageInfo,
    ClaimPackage,
    BeginPackageResolution,
    AnnounceParents,
    FailedPackageClaims,
    OwnersOf,
}

// The word w where the field is its text, and else the word that was found otherwise. (Calls of it in a row, since the definition is such a row of tests: each call proves one
// of its tests, the last one first. Tried: a table that `find` searches proves in fewer lines, and stands in the program's data, where no table may (tests/readonly); a `match`
// over the texts has 106 ends, each with a proof of its own.)
fn named(f: &[u8], text: &[u8], w: Word, otherwise: Option<Word>) -> Option<Word>
    ensures { result ≡ if same_text f.now text.now then Some w else otherwise }
{
    if same(f, text) {
        return Some(w);
    }
    otherwise
}

fn plan_word(f: &[u8]) -> Option<Word>
    ensures { result ≡ plan_word f.now }
{
    let mut w = None;
    w = named(f, b"part", Word::Part, w);
    w = named(f, b"send", Word::Send, w);
    w = named(f, b"nfd", Word::Missing, w);
    w = named(f, b"take", Word::Take, w);
    w = named(f, b"want", Word::Want, w);
    named(f, b"plan", Word::Plan, w)
}

fn hashes_word(f: &[u8]) -> Option<Word>
    ensures { result ≡ hashes_word f.now }
{
    let mut w = plan_word(f);
    w = named(f, b"whose", Word::Hashes(HashesWord::OwnersOf), w);
    w = named(f, b"lost", Word::Hashes(HashesWord::FailedPackageClaims), w);
    w = named(f, b"kin", Word::Hashes(HashesWord::AnnounceParents), w);
    w = named(
        f,
        b"beg",
        Word::Hashes(HashesWord::BeginPackageResolution),
        w,
    );
    w = named(f, b"clm", Word::Hashes(HashesWord::ClaimPackage), w);
    named(f, b"sol", Word::Hashes(HashesWord::SolicitPackageInfo), w)
}

fn keys_word(f: &[u8]) -> Option<Word>
    ensures { result ≡ keys_word f.now }
{
    let mut w = hashes_word(f);
    w = named(f, b"inv", Word::Inventory, w);
    w = named(f, b"gone", Word::Leave, w);
    w = named(f, b"rel", Word::Keys(KeysWord::ReleasePackage), w);
    w = named(f, b"fail", Word::Keys(KeysWord::FailedWithParents), w);
    named(f, b"swp", Word::Keys(KeysWord::Sweep), w)
}

fn package_word(f: &[u8]) -> Option<Word>
    ensures { result ≡ package_word f.now }
{
    let mut w = keys_word(f);
    w = named(f, b"poll", Word::Number(NumberWord::PollGate), w);
    w = named(f, b"done", Word::Number(NumberWord::ResponseCompleted), w);
    w = named(f, b"who", Word::Number(NumberWord::PackageInfoOwner), w);
    w = named(f, b"info", Word::Number(NumberWord::FailedPackageInfo), w);
    w = named(f, b"tear", Word::Number(NumberWord::Teardown), w);
    named(f, b"known", Word::Number(NumberWord::ForgetKnown), w)
}

fn request_word(f: &[u8]) -> Option<Word>
    ensures { result ≡ request_word f.now }
{
    let mut w = package_word(f);
    w = named(f, b"drop", Word::Number(NumberWord::Forget), w);
    w = named(f, b"off", Word::Number(NumberWord::Unclaim), w);
    w = named(f, b"bad", Word::Number(NumberWord::Failed), w);
    w = named(f, b"par", Word::Number(NumberWord::RequestParent), w);
    named(f, b"ann", Word::Number(NumberWord::Announce), w)
}

// The word that the field is, if it is one.
pub fn word_of(f: &[u8]) -> Option<Word>
    ensures { result ≡ word_of f.now }
{
    let mut w = request_word(f);
    w = named(f, b"sum", Word::Sum, w);
    named(f, b"open", Word::Open, w)
}
