// Trees, and making them item by item.
ghost use Rattle.std.specs.Prelude.{◌≡◌, ◌≤◌, ◌++◌, ◌∷◌, [], length, take, OnOk, OnErr};

use crate::items::Item;
use rm_base::NoMemory;
use std::alloc::Global;
use std::marker::Model;

/// A list of items, meant as a tree in prefix order.
#[derive(Debug, Drop)]
pub struct Tree {
    items: Vec<Item>,
}

impl Model for Tree {
    ghost use Rattle.std.specs.Prelude.{List};
    ghost use Rattle.refutation.specs.declared.items.Item.{Item};

    ghost Value = { List Item };

    ghost view = { λ t. t.items.items };
}

impl Tree {
    /// The items, in prefix order.
    pub fn items(&self) -> &[Item]
        ensures { result.now ≡ self.now }
    {
        self.items.as_slice()
    }
}

/// Makes a tree item by item, and can go back to an earlier length.
#[derive(Debug, Drop)]
pub struct TreeBuilder {
    items: Vec<Item>,
}

impl Model for TreeBuilder {
    ghost use Rattle.std.specs.Prelude.{List};
    ghost use Rattle.refutation.specs.declared.items.Item.{Item};

    ghost Value = { List Item };

    ghost view = { λ t. t.items.items };
}

impl TreeBuilder {
    /// No item yet.
    pub fn new(alloc: Global) -> TreeBuilder
        ensures { result ≡ [] }
    {
        TreeBuilder {
            items: Vec::new(alloc),
        }
    }

    /// Appends the item.
    pub fn push(&mut self, item: Item) -> Result<(), NoMemory>
        ensures ok { OnOk result (self.new ≡ self.old ++ item ∷ []) }
        ensures err { OnErr result (self.new ≡ self.old) }
    {
        self.items.push(item)?;
        Ok(())
    }

    /// How many items there are, to come back to.
    pub fn mark(&self) -> usize
        ensures { result ≡ length self.now }
    {
        self.items.len()
    }

    /// Drops the items after the mark.
    pub fn cut(&mut self, mark: usize)
        requires { mark ≤ length self.old }
        ensures { self.new ≡ take mark self.old }
    {
        self.items.truncate(mark);
    }

    /// The tree of the items.
    pub fn finish(self) -> Tree
        ensures { result ≡ self }
    {
        Tree { items: self.items }
    }
}
