// Names that are numbered in the order in which they are added.
ghost use Rattle.std.specs.Prelude.{◌≡◌, ◌<◌, [], ◌∷◌, ◌++◌, length, false, OnOk, OnErr, IfSome, ◌||◌, List, ℕ};
ghost use Rattle.rm_model.specs.Value.{is_among};
ghost use Rattle.rm_model.specs.Numbers.{place_of};
ghost use Rattle.rm_model.specs.Words.{is_word};
ghost use Rattle.rm_model.specs.Inner.HeldNames.{held_names};

use crate::hashed_names::HashedNames;
use crate::name_keys::NameKeys;
use crate::ordered_names::OrderedNames;
use rm_base::NoMemory;
use std::alloc::Global;
use std::marker::Model;

#[derive(Drop)]
enum Held<'a> {
    Hashed(HashedNames<'a>),
    InOrder(OrderedNames<'a>),
}

// A name that isn't there.
fn push_held<'a>(held: &mut Held<'a>, name: &'a [u8]) -> Result<(), NoMemory>
    requires { is_among (held_names held.old) name.now ≡ false }
    ensures ok { OnOk result (held_names held.new ≡ held_names held.old ++ name.now ∷ []) }
    ensures err { OnErr result (held_names held.new ≡ held_names held.old) }
{
    match held {
        Held::Hashed(names) => names.push(name),
        Held::InOrder(names) => names.push(name),
    }
}

fn include_held<'a>(held: &mut Held<'a>, name: &'a [u8]) -> Result<(), NoMemory>
    ensures { OnOk result ((x : List ℕ)
        → is_among (held_names held.new) x ≡ (is_among (held_names held.old) x || is_word x name.now)) }
{
    match held {
        Held::Hashed(names) => names.include(name),
        Held::InOrder(names) => names.include(name),
    }
}

/// Names in the order in which they were added, each once. Under drawn keys they are looked up by a hash, and else by
/// their order, so a look-up takes no more comparisons than the table's height, whatever the names are.
#[derive(Drop)]
pub struct NameTable<'a> {
    held: Held<'a>,
}

impl<'a> Model for NameTable<'a> {
    ghost use Rattle.std.specs.Prelude.{List, ℕ};

    ghost Value = { List (List ℕ) };

    ghost use Rattle.rm_model.specs.Inner.HeldNames.{held_names};

    ghost view = { λ a. held_names a.held };
}

impl<'a> NameTable<'a> {
    /// No name yet.
    pub fn new(alloc: Global, keys: NameKeys) -> NameTable<'a>
        ensures { result ≡ [] }
    {
        match keys {
            NameKeys::Drawn(keys) => NameTable {
                held: Held::Hashed(HashedNames::new(alloc, keys)),
            },
            NameKeys::Ordered => NameTable {
                held: Held::InOrder(OrderedNames::new(alloc)),
            },
        }
    }

    /// Adds a name that isn't there. Where there is no memory the table stays as it was.
    pub fn push(&mut self, name: &'a [u8]) -> Result<(), NoMemory>
        requires { is_among self.old name.now ≡ false }
        ensures ok { OnOk result (self.new ≡ self.old ++ name.now ∷ []) }
        ensures err { OnErr result (self.new ≡ self.old) }
    {
        push_held(&mut self.held, name)
    }

    /// Adds a name that isn't there.
    pub fn add(&mut self, name: &'a [u8]) -> Result<(), NoMemory>
        requires { is_among self.old name.now ≡ false }
        ensures ok { OnOk result (self.new ≡ self.old ++ name.now ∷ []) }
    {
        self.push(name)
    }

    /// Adds a name that may be there already.
    pub fn include(&mut self, name: &'a [u8]) -> Result<(), NoMemory>
        ensures { OnOk result ((x : List ℕ)
            → is_among self.new x ≡ (is_among self.old x || is_word x name.now)) }
    {
        include_held(&mut self.held, name)
    }

    /// The name's number, from 0 in the order of adding; None where it isn't there.
    pub fn place(&self, name: &'a [u8]) -> Option<usize>
        ensures place { result ≡ place_of self.now name.now }
        ensures within { IfSome result (λ k. k < length self.now) }
    {
        match &self.held {
            Held::Hashed(names) => names.place(name),
            Held::InOrder(names) => names.place(name),
        }
    }

    /// Whether the name is there.
    pub fn has(&self, name: &'a [u8]) -> bool
        ensures { result ≡ is_among self.now name.now }
    {
        match &self.held {
            Held::Hashed(names) => names.has(name),
            Held::InOrder(names) => names.has(name),
        }
    }
}
