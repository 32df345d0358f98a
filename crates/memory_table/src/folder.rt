ghost use Rattle.std.specs.Prelude.{◌≡◌, ◌≢◌, ◌↔◌, List, ℕ, Some, None, Contains, IfOk, OnOk, if◌then◌else◌, option_copied};
ghost use Rattle.std.specs.BTreeMap.{keys};
ghost use Rattle.std.specs.Cmp.Lexicographic.{slice_cmp};
ghost use Rattle.std.specs.List.Sorted.{IsStrictlySortedBy};
ghost use Rattle.std.specs.Ordering.{nat_cmp};
ghost use Rattle.ost_types.specs.Path.{same_name};
ghost use Rattle.ost_types.specs.Text.{IsName};
ghost use Rattle.memory_table.specs.Bytes.{at_bytes, HasSome};

use ost_types::{Name, Names, NoMemory};
use std::alloc::Global;
use std::collections::BTreeMap;

/// What there is at each name of one folder.
#[derive(Drop)]
pub struct Folder<V> {
    values: BTreeMap<Vec<u8>, V>,
    ghost named: { (x : List ℕ) → at_bytes values x ≢ None → ∥ IsName x ∥₁ },
}

impl<V: Drop> Folder<V> {
    pub fn new(alloc: Global) -> Folder<V>
        ensures { (x : List ℕ) → at_bytes result.values x ≡ None }
    {
        Folder {
            values: BTreeMap::new(alloc),
        }
    }

    pub fn get(&self, name: &[u8]) -> Option<&V>
        ensures { option_copied result ≡ at_bytes self.now.values name.now }
    {
        self.values.get(name)
    }

    pub fn insert(&mut self, alloc: Global, name: &[u8], value: V) -> Result<(), NoMemory>
        requires { IsName name.now }
        ensures { OnOk result ((x : List ℕ) → at_bytes self.new.values x ≡ (if same_name name.now x then Some value else at_bytes self.old.values x)) }
    {
        self.values.insert(Vec::from_slice(alloc, name)?, value)?;
        Ok(())
    }

    pub fn remove(&mut self, name: &[u8]) -> Option<V>
        ensures value { result ≡ at_bytes self.old.values name.now }
        ensures updates { (x : List ℕ) → at_bytes self.new.values x ≡ (if same_name name.now x then None else at_bytes self.old.values x) }
    {
        self.values.remove(name)
    }

    /// Whether there is anything.
    pub fn has_any(&self) -> bool
        ensures { HasSome result self.now.values }
    {
        match self.values.first_key_value() {
            Some(_) => true,
            None => false,
        }
    }

    /// The names at which there is anything, ascending.
    pub fn names(&self, alloc: Global) -> Result<Names, NoMemory>
        ensures ascending { IfOk result (λ ns. IsStrictlySortedBy (slice_cmp nat_cmp) ns) }
        ensures exact { IfOk result (λ ns. (x : List ℕ) → Contains ns x ↔ (at_bytes self.now.values x ≢ None)) }
    {
        let mut listed: Vec<Name> = Vec::new(alloc);
        for key in self.values.keys() {
            listed.push(name_of(alloc, key.as_slice())?)?;
        }
        Ok(Names::from_vec(listed))
    }
}

fn name_of(alloc: Global, text: &[u8]) -> Result<Name, NoMemory>
    requires { ∥ IsName text.now ∥₁ }
    ensures { IfOk result (λ n. n ≡ text.now) }
{
    match Name::parse(alloc, text)? {
        Some(name) => Ok(name),
        None => unreachable!(),
    }
}
