ghost use Rattle.std.specs.Prelude.{◌≡◌, [], Some, None, false, true, OnOk, OnErr, if◌then◌else◌};
ghost use Rattle.std.specs.Option.{option_copied};
ghost use Rattle.tl_types.specs.Same.{file_same};
ghost use Rattle.tl_types.specs.declared.file_id.FileId.{FileId as File};
ghost use Rattle.indexmap.specs.IndexMap.{insert_entry};
ghost use Rattle.tl_vault.specs.Vault.{has_place, saved_of};

use indexmap::IndexMap;
use std::alloc::Global;
use std::marker::Model;
use tl_model::Saved;
use tl_types::{FileId, NoMemory};

/// What is kept of each file in the checkpoint store. Contracts see a place for each file that asked
/// for one, and what is kept there, if anything is.
#[derive(Debug, Drop)]
pub struct Vault<T> {
    places: IndexMap<FileId, Option<Saved<T>>>,
}

impl<T> Model for Vault<T> {
    ghost use Rattle.std.specs.Coded.{codes};
    ghost use Rattle.tl_vault.specs.Vault.{Places};

    ghost Value = { Places T };

    ghost coded = { Prim.hlevel (codes, T.code) };

    ghost view = { λ v. v.places.entries };
}

impl<T> Vault<T> {
    /// A vault that keeps nothing and has no place.
    pub fn new(alloc: Global) -> Vault<T>
        ensures { result ≡ [] }
    {
        Vault {
            places: IndexMap::new(alloc),
        }
    }

    /// What is kept of a file; `None` exactly where nothing is.
    pub fn get(&self, f: FileId) -> Option<&Saved<T>>
        ensures { option_copied result ≡ saved_of f self.now }
    {
        find_saved(&self.places, f)
    }
}

impl<T: Drop> Vault<T> {
    /// Makes the place of a file, where it has none: asked twice is as asked once. Nothing that is kept
    /// changes. `Err` changes nothing.
    pub fn room(&mut self, f: FileId) -> Result<(), NoMemory>
        ensures room { OnOk result (has_place f self.new ≡ true) }
        ensures again { has_place f self.old ≡ true → self.new ≡ self.old }
        ensures others { (g : File) → file_same f g ≡ false → has_place g self.new ≡ has_place g self.old }
        ensures kept { (g : File) → saved_of g self.new ≡ saved_of g self.old }
        ensures err { OnErr result (self.new ≡ self.old) }
    {
        make_place(&mut self.places, f)
    }

    /// Keeps this of a file that has a place and of which nothing is kept. It takes no memory.
    pub fn insert(&mut self, f: FileId, saved: Saved<T>)
        requires room { has_place f self.old ≡ true }
        requires absent { saved_of f self.old ≡ None }
        ensures kept { (g : File) → saved_of g self.new ≡ (if file_same g f then Some saved else saved_of g self.old) }
        ensures places { (g : File) → has_place g self.new ≡ has_place g self.old }
    {
        put_at(&mut self.places, f, saved);
    }
}

// What is kept at the place of a file.
fn find_saved<T>(places: &IndexMap<FileId, Option<Saved<T>>>, f: FileId) -> Option<&Saved<T>>
    ensures { option_copied result ≡ saved_of f places.now.entries }
{
    match places.get(&f) {
        Some(kept) => kept.as_ref(),
        None => None,
    }
}

// Makes the place of a file, where it has none.
fn make_place<T: Drop>(
    places: &mut IndexMap<FileId, Option<Saved<T>>>,
    f: FileId,
) -> Result<(), NoMemory>
    ensures room { OnOk result (has_place f places.new.entries ≡ true) }
    ensures again { has_place f places.old.entries ≡ true → places.new.entries ≡ places.old.entries }
    ensures others { (g : File) → file_same f g ≡ false → has_place g places.new.entries ≡ has_place g places.old.entries }
    ensures kept { (g : File) → saved_of g places.new.entries ≡ saved_of g places.old.entries }
    ensures err { OnErr result (places.new.entries ≡ places.old.entries) }
{
    if has_place(places, f) {
        return Ok(());
    }
    add_place(places, f)
}

// Whether a file has a place.
fn has_place<T>(places: &IndexMap<FileId, Option<Saved<T>>>, f: FileId) -> bool
    ensures { result ≡ has_place f places.now.entries }
{
    places.get(&f).is_some()
}

// Makes the place of a file that has none.
fn add_place<T: Drop>(
    places: &mut IndexMap<FileId, Option<Saved<T>>>,
    f: FileId,
) -> Result<(), NoMemory>
    requires { has_place f places.old.entries ≡ false }
    ensures ok { OnOk result (places.new.entries ≡ insert_entry file_same places.old.entries f None) }
    ensures err { OnErr result (places.new.entries ≡ places.old.entries) }
{
    match places.insert(f, None) {
        Ok(_) => Ok(()),
        Err(_) => Err(NoMemory),
    }
}

// Keeps this at the place of a file.
fn put_at<T: Drop>(places: &mut IndexMap<FileId, Option<Saved<T>>>, f: FileId, saved: Saved<T>)
    requires { has_place f places.old.entries ≡ true }
    ensures kept { (g : File) → saved_of g places.new.entries ≡ (if file_same g f then Some saved else saved_of g places.old.entries) }
    ensures places { (g : File) → has_place g places.new.entries ≡ has_place g places.old.entries }
{
    if places.insert(f, Some(saved)).is_err() {
        unreachable!();
    }
}
