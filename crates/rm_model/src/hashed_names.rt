// Names in the order in which they were added, looked up by a hash under drawn keys.
ghost use Rattle.std.specs.Prelude.{◌≡◌, ◌<◌, [], ◌∷◌, ◌++◌, length, false, OnOk, OnErr, IfSome, ◌||◌, List, ℕ};
ghost use Rattle.rm_model.specs.Value.{is_among};
ghost use Rattle.rm_model.specs.Numbers.{place_of};
ghost use Rattle.rm_model.specs.Words.{is_word};
ghost use Rattle.std.proofs.Common.{ap};
ghost use Rattle.std.specs.Cmp.Lexicographic.{bytes_decides};

use indexmap::IndexSet;
use rm_base::NoMemory;
use std::alloc::Global;
use std::hash::{Hash, Hasher, RandomState};
use std::marker::Model;

// A name, whose bytes are hashed at once.
#[derive(Clone, Copy, PartialEq, Eq)]
struct WholeName<'a> {
    bytes: &'a [u8],
}

impl<'a> Hash for WholeName<'a> {
    ghost hash_input = { λ x. x.bytes.now ∷ [] };

    ghost respects_eq = { λ x y same. ap (λ bytes. bytes ∷ []) ((bytes_decides x.bytes.now y.bytes.now).0 same) };

    fn hash<H: Hasher>(&self, state: &mut H) {
        state.write(self.bytes);
    }
}

#[derive(Drop)]
pub struct HashedNames<'a> {
    names: IndexSet<WholeName<'a>, RandomState>,
}

impl<'a> Model for HashedNames<'a> {
    ghost use Rattle.std.specs.Prelude.{List, ℕ, map};

    ghost Value = { List (List ℕ) };

    ghost view = { λ a. map (λ k. k.bytes.now) a.names.keys };
}

impl<'a> HashedNames<'a> {
    pub fn new(alloc: Global, keys: RandomState) -> HashedNames<'a>
        ensures { result ≡ [] }
    {
        HashedNames {
            names: IndexSet::with_hasher(alloc, keys),
        }
    }

    pub fn push(&mut self, name: &'a [u8]) -> Result<(), NoMemory>
        requires { is_among self.old name.now ≡ false }
        ensures ok { OnOk result (self.new ≡ self.old ++ name.now ∷ []) }
        ensures err { OnErr result (self.new ≡ self.old) }
    {
        self.names.insert(WholeName { bytes: name })?;
        Ok(())
    }

    pub fn include(&mut self, name: &'a [u8]) -> Result<(), NoMemory>
        ensures { OnOk result ((x : List ℕ)
            → is_among self.new x ≡ (is_among self.old x || is_word x name.now)) }
    {
        self.names.insert(WholeName { bytes: name })?;
        Ok(())
    }

    pub fn place(&self, name: &'a [u8]) -> Option<usize>
        ensures place { result ≡ place_of self.now name.now }
        ensures within { IfSome result (λ k. k < length self.now) }
    {
        self.names.get_index_of(&WholeName { bytes: name })
    }

    pub fn has(&self, name: &'a [u8]) -> bool
        ensures { result ≡ is_among self.now name.now }
    {
        self.names.contains(&WholeName { bytes: name })
    }
}
