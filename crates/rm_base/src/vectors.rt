// Values of the sources: known or unknown in a cube, known in a vector.
ghost use Rattle.std.specs.Prelude.{◌≡◌, ◌<◌, IfOk, Some, false, length, replicate, slice_get, slice_set};
ghost use Rattle.rm_base.specs.declared.vectors.Value3.TheVariants.{Unknown};

use crate::numbers::{NoMemory, SourceNo};
use std::alloc::Global;
use std::marker::Model;

/// A value of three-valued simulation.
#[derive(Clone, Copy, Debug, PartialEq, Eq)]
pub enum Value3 {
    Zero,
    One,
    Unknown,
}

/// A value for each source, perhaps unknown, by the source's number.
#[derive(Debug, Drop)]
pub struct Cube {
    kept: Vec<Value3>,
}

impl Model for Cube {
    ghost use Rattle.std.specs.Prelude.{List};
    ghost use Rattle.rm_base.specs.declared.vectors.Value3.{Value3};

    ghost Value = { List Value3 };

    ghost view = { λ c. c.kept.items };
}

impl Cube {
    /// A cube of `count` unknown values.
    pub fn unknown(alloc: Global, count: usize) -> Result<Cube, NoMemory>
        ensures { IfOk result (λ cube. cube ≡ replicate count Unknown) }
    {
        Ok(Cube {
            kept: vec![in alloc; Value3::Unknown; count]?,
        })
    }

    pub fn len(&self) -> usize
        ensures { result ≡ length self.now }
    {
        self.kept.len()
    }

    pub fn get(&self, at: SourceNo) -> Value3
        requires { at.0 < length self.now }
        ensures { slice_get self.now at.0 ≡ Some result }
    {
        self.kept[at.0 as usize]
    }

    pub fn set(&mut self, at: SourceNo, value: Value3)
        requires { at.0 < length self.old }
        ensures { self.new ≡ slice_set self.old at.0 value }
    {
        self.kept[at.0 as usize] = value;
    }

    /// All values, in the order of the sources.
    pub fn values(&self) -> &[Value3]
        ensures { result.now ≡ self.now }
    {
        self.kept.as_slice()
    }
}

/// A truth value for each source, by the source's number; also for each of a list of points.
#[derive(Debug, Drop)]
pub struct Vector {
    kept: Vec<bool>,
}

impl Model for Vector {
    ghost use Rattle.std.specs.Prelude.{Bool, List};

    ghost Value = { List Bool };

    ghost view = { λ v. v.kept.items };
}

impl Vector {
    /// A vector of `count` zeros.
    pub fn zeros(alloc: Global, count: usize) -> Result<Vector, NoMemory>
        ensures { IfOk result (λ vector. vector ≡ replicate count false) }
    {
        Ok(Vector {
            kept: vec![in alloc; false; count]?,
        })
    }

    /// The vector of these values. It takes no memory.
    pub fn of(values: Vec<bool>) -> Vector
        ensures { result ≡ values.items }
    {
        Vector { kept: values }
    }

    pub fn len(&self) -> usize
        ensures { result ≡ length self.now }
    {
        self.kept.len()
    }

    pub fn get(&self, at: SourceNo) -> bool
        requires { at.0 < length self.now }
        ensures { slice_get self.now at.0 ≡ Some result }
    {
        self.kept[at.0 as usize]
    }

    pub fn set(&mut self, at: SourceNo, value: bool)
        requires { at.0 < length self.old }
        ensures { self.new ≡ slice_set self.old at.0 value }
    {
        self.kept[at.0 as usize] = value;
    }

    /// All values, in the order of the sources.
    pub fn values(&self) -> &[bool]
        ensures { result.now ≡ self.now }
    {
        self.kept.as_slice()
    }
}
