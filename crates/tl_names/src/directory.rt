ghost use Rattle.std.specs.Prelude.{◌≡◌, [], length, map, None, IfOk, OnOk, OnErr};
ghost use Rattle.std.specs.Map.{lookup, remove_entry};
ghost use Rattle.std.specs.BTreeMap.{insert_entry};
ghost use Rattle.std.specs.Cmp.Lexicographic.{slice_cmp};
ghost use Rattle.std.specs.Ordering.{nat_cmp};
ghost use Rattle.std.specs.Str.{bytes_eq};
ghost use Rattle.tl_names.specs.Tables.{children_of, entry_in};

use crate::child::Child;
use std::alloc::Global;
use std::collections::BTreeMap;
use std::collections::btree_map::Iter;
use std::marker::Model;
use tl_model::Entry;
use tl_types::{Items, NoMemory};

/// The names in a directory. Contracts see the list of the names, ascending by their bytes, each
/// with what it stands for.
#[derive(Drop)]
pub struct Directory {
    children: BTreeMap<Vec<u8>, Child>,
}

impl Model for Directory {
    ghost use Rattle.tl_names.specs.Tables.{Children, children_of};

    ghost Value = { Children };

    ghost view = { λ directory. children_of directory.children.entries };
}

impl Directory {
    /// A directory with no names.
    pub fn new(alloc: Global) -> Directory
        ensures { result ≡ [] }
    {
        Directory {
            children: BTreeMap::new(alloc),
        }
    }

    /// The number of names.
    pub fn len(&self) -> usize
        ensures { result ≡ length self.now }
    {
        self.children.len()
    }

    /// What a name stands for.
    pub fn get(&self, name: &[u8]) -> Option<Child>
        ensures { result ≡ lookup (bytes_eq name.now) self.now }
    {
        self.children.get(name).copied()
    }

    /// The names, ascending by their bytes, each with what it stands for.
    pub fn iter(&self) -> Iter<'_, Vec<u8>, Child>
        ensures { children_of result ≡ self.now }
    {
        self.children.iter()
    }

    /// The names, ascending by their bytes, each with whether it names a directory.
    pub fn list(&self, alloc: Global) -> Result<Vec<Entry>, NoMemory>
        ensures { IfOk result (λ entries. entries.items ≡ map entry_in self.now) }
    {
        entries_of(alloc, &self.children)
    }

    /// Lets a name stand for this from now on.
    pub fn insert(&mut self, name: Vec<u8>, child: Child) -> Result<(), NoMemory>
        ensures ok { OnOk result (self.new ≡ insert_entry (slice_cmp nat_cmp) self.old name.items child) }
        ensures err { OnErr result (self.new ≡ self.old) }
        ensures absent { OnErr result (lookup (bytes_eq name.items) self.old ≡ None) }
    {
        self.children.insert(name, child)?;
        Ok(())
    }

    /// Takes a name away.
    pub fn remove(&mut self, name: &[u8])
        ensures entries { self.new ≡ remove_entry (bytes_eq name.now) self.old }
        ensures gone { lookup (bytes_eq name.now) self.new ≡ None }
    {
        let _distinct = self.children.len();
        self.children.remove(name);
    }
}

// The entries of the names.
fn entries_of(alloc: Global, children: &BTreeMap<Vec<u8>, Child>) -> Result<Vec<Entry>, NoMemory>
    ensures { IfOk result (λ entries. entries.items ≡ map entry_in (children_of children.now.entries)) }
{
    let mut entries = Vec::new(alloc);
    for (name, child) in children.iter() {
        entries.push(entry_of(alloc, name, *child)?)?;
    }
    Ok(entries)
}

// The entry of a name.
fn entry_of(alloc: Global, name: &[u8], child: Child) -> Result<Entry, NoMemory>
    ensures { IfOk result (λ entry. entry ≡ entry_in (name.now, child)) }
{
    Ok(Entry {
        name: Items::from_vec(name.to_vec(alloc)?),
        dir: matches!(child, Child::Dir(_)),
    })
}
