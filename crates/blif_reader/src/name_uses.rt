// What each name of a text stands for so far, by first appearance.
ghost use Rattle.std.specs.Prelude.{◌≡◌, [], length, map, slice_get, OnOk, OnErr};
ghost use Rattle.std.specs.Option.{option_map};
ghost use Rattle.rm_model.specs.Numbers.{place_of};
ghost use Rattle.rm_base.specs.Words.{Word};
ghost use Rattle.blif_reader.specs.Inner.Tally.{entry_of, put_entry};

use crate::names::NameUse;
use rm_base::NoMemory;
use rm_model::{NameKeys, NameTable};
use std::alloc::Global;
use std::marker::Model;

/// Names, each with its entry. Contracts see the pairs of both.
#[derive(Drop)]
pub struct NameUses<'a> {
    names: NameTable<'a>,
    entries: Vec<NameUse>,
}

impl<'a> Model for NameUses<'a> {
    ghost use Rattle.std.specs.Prelude.{List};
    ghost use Rattle.rm_base.specs.Words.{Word};
    ghost use Rattle.blif_reader.specs.declared.names.NameUse.{NameUse};

    ghost Value = { List (Word × NameUse) };

    ghost use Rattle.blif_reader.specs.Inner.Paired.{pairs, IsPaired};

    ghost view = { pairs };

    ghost invariant = { IsPaired };
}

impl<'a> NameUses<'a> {
    pub fn new(alloc: Global, keys: NameKeys) -> NameUses<'a>
        ensures { result ≡ [] }
    {
        NameUses {
            names: NameTable::new(alloc, keys),
            entries: Vec::new(alloc),
        }
    }

    /// How many names there are.
    pub fn len(&self) -> usize
        ensures { result ≡ length self.now }
    {
        self.entries.len()
    }

    /// The place of a name by first appearance, None where it isn't there.
    pub fn find(&self, name: &'a [u8]) -> Option<usize>
        ensures { result ≡ place_of (map (λ e. e.0) self.now) name.now }
    {
        self.names.place(name)
    }

    /// The entry of the name that was found at a place.
    pub fn get(&self, found: Option<usize>) -> Option<NameUse>
        ensures { (x : Word) → found ≡ place_of (map (λ e. e.0) self.now) x → result ≡ entry_of self.now x }
    {
        match found {
            Some(place) => self.at(place),
            None => None,
        }
    }

    /// The entry of the name at an index.
    pub fn at(&self, index: usize) -> Option<NameUse>
        ensures { result ≡ option_map (λ e. e.1) (slice_get self.now index) }
    {
        if index < self.entries.len() {
            return Some(self.entries[index]);
        }
        None
    }

    /// Puts an entry under a name, where that was found, or at the end where it isn't there.
    pub fn put(
        &mut self,
        found: Option<usize>,
        name: &'a [u8],
        entry: NameUse,
    ) -> Result<(), NoMemory>
        requires { found ≡ place_of (map (λ e. e.0) self.old) name.now }
        ensures ok { OnOk result (self.new ≡ put_entry self.old name.now entry) }
        ensures err { OnErr result (self.new ≡ self.old) }
    {
        if let Some(place) = found {
            self.entries[place] = entry;
            return Ok(());
        }
        self.entries.reserve(1)?;
        self.names.push(name)?;
        self.entries.push(entry)?;
        Ok(())
    }
}
