ghost use Rattle.std.specs.Prelude.{◌≡◌, ◌++◌, ◌∷◌, List, [], IfOk, OnOk, OnErr};

use crate::{Name, NoMemory, ObjName, Text, TryCopy, Xattr, copy_all};
use std::alloc::Global;
use std::marker::Model;

/// A list that grows at its end.
#[derive(Drop, Debug)]
pub struct Items<T> {
    items: Vec<T>,
}

impl<T> Model for Items<T> {
    ghost use Rattle.std.specs.Prelude.{List};

    ghost Value = { List T };

    ghost view = { λ a. a.items.items };
}

impl<T: Drop> Items<T> {
    pub fn new(alloc: Global) -> Items<T>
        ensures { result ≡ [] }
    {
        Items {
            items: Vec::new(alloc),
        }
    }

    pub fn from_vec(items: Vec<T>) -> Items<T>
        ensures { result ≡ items.items }
    {
        Items { items }
    }

    pub fn into_vec(self) -> Vec<T>
        ensures { result.items ≡ self }
    {
        self.items
    }

    pub fn as_slice(&self) -> &[T]
        ensures { result.now ≡ self.now }
    {
        &self.items
    }

    pub fn push(&mut self, item: T) -> Result<(), NoMemory>
        ensures ok { OnOk result (self.new ≡ self.old ++ item ∷ []) }
        ensures err { OnErr result (self.new ≡ self.old) }
    {
        self.items.push(item)?;
        Ok(())
    }
}

impl<T: TryCopy> TryCopy for Items<T> {
    fn copy(&self) -> Result<Items<T>, NoMemory> {
        Ok(Items {
            items: copy_all(*self.items.allocator(), &self.items)?,
        })
    }
}

/// Texts, in an order of their own.
pub type Texts = Items<Text>;

/// Names of nodes.
pub type Names = Items<Name>;

/// Names of objects.
pub type ObjNames = Items<ObjName>;

/// The extended attributes of a node, in the order in which they were given.
pub type Xattrs = Items<Xattr>;
