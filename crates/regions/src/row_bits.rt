// What a row says beside its words: its key, and what each of its bits stands for.
ghost use Rattle.std.specs.Prelude.{◌≡◌, ◌/◌, ◌%◌, eqb};
ghost use Rattle.ident.specs.Number.{kind_is};
ghost use Rattle.ident.specs.Words.{key_num};
ghost use Rattle.regions.specs.Packed.{bits_number};
ghost use Rattle.regions.specs.Rows.{quad_number, key_of};

use crate::{Key, Row};

// What the bits of a row say, by name: what a new row's are made of.
#[derive(Clone, Copy, Debug, PartialEq, Eq)]
pub struct RowBits {
    pub kind: ident::Kind,
    pub witness: bool,
    pub preferred: bool,
    pub owns: bool,
    pub mark: bool,
}

impl From<RowBits> for u64 {
    ghost from_gives = { λ b n. n ≡ bits_number b };

    fn from(b: RowBits) -> u64 {
        u64::from(b.kind)
            + 2 * u64::from(b.witness)
            + 4 * u64::from(b.preferred)
            + 8 * u64::from(b.owns)
            + 16 * u64::from(b.mark)
    }
}

impl Row {
    // Which of the two identities its hash is.
    pub fn kind(self) -> ident::Kind
        ensures { result ≡ kind_is (self.bits % 2) }
    {
        ident::Kind::from(self.bits % 2)
    }

    // Whether its item is v: a transaction with its witness, asked for by its Txid.
    pub fn is_witness(self) -> bool
        ensures { result ≡ eqb (self.bits / 2 % 2) 1 }
    {
        self.bits / 2 % 2 == 1
    }

    pub fn is_preferred(self) -> bool
        ensures { result ≡ eqb (self.bits / 4 % 2) 1 }
    {
        self.bits / 4 % 2 == 1
    }

    // Whether its connection owns the request.
    pub fn owns(self) -> bool
        ensures { result ≡ eqb (self.bits / 8 % 2) 1 }
    {
        self.bits / 8 % 2 == 1
    }

    // Whether its request has the mark.
    pub fn is_marked(self) -> bool
        ensures { result ≡ eqb (self.bits / 16 % 2) 1 }
    {
        self.bits / 16 % 2 == 1
    }
}

// What rows are in the order of.
impl From<Row> for Key {
    ghost from_gives = { λ r k. k ≡ key_of r };

    fn from(r: Row) -> Key {
        Key {
            kind: r.kind(),
            hash: r.hash,
        }
    }
}

impl From<Key> for ident::Key {
    ghost from_gives = { λ r k. key_num k ≡ record { kind = r.kind; hash = quad_number r.hash } };

    fn from(k: Key) -> ident::Key {
        ident::Key {
            kind: k.kind,
            hash: ident::Hash::from(k.hash),
        }
    }
}

// A row's key as document 01 has it.
impl From<Row> for ident::Key {
    ghost from_gives = { λ r k. key_num k ≡ record { kind = kind_is (r.bits % 2); hash = quad_number r.hash } };

    fn from(r: Row) -> ident::Key {
        ident::Key::from(Key::from(r))
    }
}
