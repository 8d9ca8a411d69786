// Names in the order in which they were added, looked up by their order.
ghost use Rattle.std.specs.Prelude.{◌≡◌, ◌^◌, ◌<◌, [], ◌∷◌, ◌++◌, length, map, false, is_some, OnOk, OnErr, IfSome, ◌||◌, List, ℕ};
ghost use Rattle.rm_model.specs.Value.{is_among};
ghost use Rattle.rm_model.specs.Numbers.{place_of};
ghost use Rattle.rm_model.specs.Inner.PlacedNames.{mixed, name_hash};
ghost use Rattle.rm_model.specs.Words.{is_word};

use rm_base::NoMemory;
use std::alloc::Global;
use std::collections::BTreeMap;
use std::marker::Model;

// A number by which most names are told apart at once.
fn hash_of(name: &[u8]) -> u64
    ensures { result ≡ name_hash name.now }
{
    let mut hash = 0u64;
    for byte in name {
        hash = mix(hash, *byte);
    }
    hash
}

fn mix(hash: u64, byte: u8) -> u64
    ensures { result ≡ mixed hash byte }
{
    hash.wrapping_mul(6_364_136_223_846_793_005)
        .wrapping_add(u64::from(byte))
}

// They are looked up by a number made of their bytes, and where names share it, by their order as texts: so a look-up takes
// no more comparisons than the map's height, whatever the names are.
#[derive(Drop)]
pub struct OrderedNames<'a> {
    names: Vec<&'a [u8]>,
    places: BTreeMap<(u64, &'a [u8]), usize>,
}

impl<'a> Model for OrderedNames<'a> {
    ghost use Rattle.std.specs.Prelude.{List, ℕ};

    ghost Value = { List (List ℕ) };

    ghost use Rattle.rm_model.specs.Inner.PlacedNames.{added_names, IsPlaced};

    ghost view = { added_names };

    ghost invariant = { IsPlaced };
}

impl<'a> OrderedNames<'a> {
    pub fn new(alloc: Global) -> OrderedNames<'a>
        ensures { result ≡ [] }
    {
        OrderedNames {
            names: Vec::new(alloc),
            places: BTreeMap::new(alloc),
        }
    }

    pub fn push(&mut self, name: &'a [u8]) -> Result<(), NoMemory>
        requires { is_among self.old name.now ≡ false }
        ensures ok { OnOk result (self.new ≡ self.old ++ name.now ∷ []) }
        ensures err { OnErr result (self.new ≡ self.old) }
    {
        self.names.reserve(1)?;
        self.places.insert((hash_of(name), name), self.names.len())?;
        self.names.push(name)?;
        Ok(())
    }

    pub fn include(&mut self, name: &'a [u8]) -> Result<(), NoMemory>
        ensures { OnOk result ((x : List ℕ)
            → is_among self.new x ≡ (is_among self.old x || is_word x name.now)) }
    {
        if self.has(name) {
            return Ok(());
        }
        self.push(name)
    }

    pub fn place(&self, name: &'a [u8]) -> Option<usize>
        ensures place { result ≡ place_of self.now name.now }
        ensures within { IfSome result (λ k. k < length self.now) }
    {
        match self.places.get(&(hash_of(name), name)) {
            Some(place) => Some(*place),
            None => None,
        }
    }

    pub fn has(&self, name: &'a [u8]) -> bool
        ensures { result ≡ is_among self.now name.now }
    {
        self.places.contains_key(&(hash_of(name), name))
    }
}
