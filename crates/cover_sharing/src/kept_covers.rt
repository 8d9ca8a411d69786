// The covers that are kept, looked up by their bytes.
ghost use Rattle.std.specs.Prelude.{◌≡◌, ◌++◌, ◌∷◌, [], IfOk, OnOk};
ghost use Rattle.rm_model.specs.declared.parts.Cover.{Cover as CoverOf};
ghost use Rattle.cover_sharing.specs.Inner.Encoding.{encoding_of};
ghost use Rattle.cover_sharing.specs.Inner.Placed.{output_at as output_of};
ghost use Rattle.cover_sharing.specs.Shared.{first_same};

use rm_base::NoMemory;
use rm_model::{Cover, Name, copy_name};
use std::alloc::Global;
use std::collections::BTreeMap;
use std::marker::Model;

// A copy of the output of the cover at a place.
fn output_at(alloc: Global, covers: &[Cover], place: usize) -> Result<Option<Name>, NoMemory>
    ensures { IfOk result (λ name. name ≡ output_of covers.now place) }
{
    match covers.get(place) {
        None => Ok(None),
        Some(cover) => Ok(Some(copy_name(alloc, &cover.output)?)),
    }
}

/// Covers in the order in which they are kept. Equal ones are looked up by their bytes.
#[derive(Drop)]
pub struct KeptCovers {
    covers: Vec<Cover>,
    places: BTreeMap<Vec<u8>, usize>,
}

impl Model for KeptCovers {
    ghost use Rattle.std.specs.Prelude.{List};
    ghost use Rattle.rm_model.specs.declared.parts.Cover.{Cover as CoverOf};

    ghost Value = { List CoverOf };

    ghost use Rattle.cover_sharing.specs.Inner.Placed.{IsPlaced};

    ghost view = { λ a. a.covers.items };

    ghost invariant = { IsPlaced };
}

impl KeptCovers {
    /// No cover yet.
    pub fn new(alloc: Global) -> KeptCovers
        ensures { result ≡ [] }
    {
        KeptCovers {
            covers: Vec::new(alloc),
            places: BTreeMap::new(alloc),
        }
    }

    /// The output of the first cover with these bytes.
    pub fn first(&self, alloc: Global, bytes: &[u8]) -> Result<Option<Name>, NoMemory>
        ensures { IfOk result (λ name. (d : CoverOf) → bytes.now ≡ encoding_of d → name ≡ first_same self.now d) }
    {
        match self.places.get(bytes) {
            None => Ok(None),
            Some(place) => {
                let name = output_at(alloc, self.covers.as_slice(), *place)?;
                Ok(name)
            }
        }
    }

    /// Keeps a cover, whose bytes are given.
    pub fn push(&mut self, cover: Cover, bytes: Vec<u8>) -> Result<(), NoMemory>
        requires { bytes.items ≡ encoding_of cover }
        ensures { OnOk result (self.new ≡ self.old ++ cover ∷ []) }
    {
        self.covers.reserve(1)?;
        if !self.places.contains_key(bytes.as_slice()) {
            self.places.insert(bytes, self.covers.len())?;
        }
        self.covers.push(cover)?;
        Ok(())
    }

    /// All covers, in order.
    pub fn into_covers(self) -> Vec<Cover>
        ensures { result.items ≡ self }
    {
        let KeptCovers { covers, .. } = self;
        covers
    }
}
