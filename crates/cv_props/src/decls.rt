//! The declarations of an element.

ghost use Rattle.std.specs.Prelude.{◌≡◌, ◌<◌, ℕ, [], length, slice_get, is_some, Some, All, IfOk, IfSome, OnOk, OnErr, position};
ghost use Rattle.std.specs.List.{IsDistinct};
ghost use Rattle.std.specs.Option.{option_copied};
ghost use Rattle.std.specs.Map.{keys_of, remove_entry};
ghost use Rattle.indexmap.specs.IndexMap.{insert_entry};
ghost use Rattle.cv_valuation.specs.Keys.{same_key};
ghost use Rattle.cv_props.specs.Winners.{declaration_of};
ghost use Rattle.cv_props.specs.Declaring.{IsDeclaredEntry, IsPlaceOf, MayDeclare, is_important, with_declaration};

use cv_valuation::Key;
use cv_var::Declared;
use indexmap::IndexMap;
use std::alloc::{AllocError, Global};
use std::marker::Model;

/// A declaration: its value, and whether it is important.
#[derive(Drop)]
pub struct Decl {
    pub value: Declared,
    pub important: bool,
}

impl Decl {
    /// The same declaration again.
    pub fn copy(&self) -> Result<Self, AllocError>
        ensures { IfOk result (λ declaration. declaration ≡ self.now) }
    {
        Ok(Decl {
            value: self.value.copy()?,
            important: self.important,
        })
    }
}

/// Declarations by key, in the order in which the keys were first seen. Contracts see the list of keys and declarations, in
/// which each key stands once.
#[derive(Drop)]
pub struct Decls {
    declarations: IndexMap<Key, Decl>,
}

impl Model for Decls {
    ghost use Rattle.std.specs.Prelude.{All};
    ghost use Rattle.cv_props.specs.Winners.{Declarations};
    ghost use Rattle.cv_props.specs.Declaring.{IsDeclaredEntry};

    ghost Value = { Declarations };

    ghost view = { λ decls. decls.declarations.entries };

    ghost invariant = { λ decls. All IsDeclaredEntry decls.declarations.entries };
}

impl Decls {
    /// No declaration.
    pub fn new(alloc: Global) -> Self
        ensures { result ≡ [] }
    {
        Decls {
            declarations: IndexMap::new(alloc),
        }
    }

    /// The declaration of the key, if there is one.
    pub fn get(&self, key: &Key) -> Option<&Decl>
        ensures { option_copied result ≡ declaration_of self.now key.now }
    {
        self.declarations.get(key)
    }

    /// The place of the key, if it has a declaration.
    pub fn index_of(&self, key: &Key) -> Option<usize>
        ensures place { result ≡ position (same_key key.now) (keys_of self.now) }
        ensures only_where { IfSome result (λ place. IsPlaceOf self.now key.now place) }
        ensures exactly_where { (place : ℕ) → IsPlaceOf self.now key.now place → result ≡ Some place }
    {
        self.declarations.get_index_of(key)
    }

    /// How many keys there are.
    pub fn len(&self) -> usize
        ensures len { result ≡ length self.now }
        ensures once { IsDistinct same_key (keys_of self.now) }
    {
        self.declarations.len()
    }

    /// The key and the declaration at this place.
    pub fn at(&self, place: usize) -> (&Key, &Decl)
        requires { place < length self.now }
        ensures entry { slice_get self.now place ≡ Some (result.0.now, result.1.now) }
        ensures kept { MayDeclare result.0.now result.1.now }
    {
        self.declarations.get_index(place).unwrap()
    }

    /// Declares the key: in its place where it has one, else last.
    pub fn put(&mut self, key: Key, declaration: Decl) -> Result<(), AllocError>
        requires { MayDeclare key declaration }
        ensures ok { OnOk result (self.new ≡ insert_entry same_key self.old key declaration) }
        ensures err { OnErr result (self.new ≡ self.old) }
    {
        self.declarations.insert(key, declaration)?;
        Ok(())
    }

    /// Takes the key out and closes up. Whether it was there.
    pub fn remove(&mut self, key: &Key) -> bool
        ensures there { result ≡ is_some (declaration_of self.old key.now) }
        ensures rest { self.new ≡ remove_entry (same_key key.now) self.old }
    {
        self.declarations.shift_remove(key).is_some()
    }

    /// Takes every key out.
    pub fn clear(&mut self)
        ensures { self.new ≡ [] }
    {
        self.declarations.clear();
    }

    /// The same declarations again.
    pub fn copy(&self) -> Result<Self, AllocError>
        ensures { IfOk result (λ decls. decls ≡ self.now) }
    {
        Ok(Decls {
            declarations: copied(&self.declarations)?,
        })
    }

    // Whether the key has an important declaration.
    fn is_important(&self, key: &Key) -> bool
        ensures { result ≡ is_important (declaration_of self.now key.now) }
    {
        match self.get(key) {
            Some(declaration) => declaration.important,
            None => false,
        }
    }

    /// Keeps one more declaration: it wins unless an important one stands there and it isn't important.
    pub(crate) fn keep(&mut self, key: Key, declaration: Decl) -> Result<(), AllocError>
        requires { MayDeclare key declaration }
        ensures { OnOk result (self.new ≡ with_declaration self.old key declaration) }
    {
        if !declaration.important && self.is_important(&key) {
            return Ok(());
        }
        self.put(key, declaration)
    }
}

fn copied(declarations: &IndexMap<Key, Decl>) -> Result<IndexMap<Key, Decl>, AllocError>
    ensures { IfOk result (λ all. all.entries ≡ declarations.now.entries) }
{
    let mut all = IndexMap::new(*declarations.allocator());
    for (key, declaration) in declarations.iter() {
        add_copy(&mut all, key, declaration)?;
    }
    Ok(all)
}

fn add_copy(all: &mut IndexMap<Key, Decl>, key: &Key, declaration: &Decl) -> Result<(), AllocError>
    ensures { OnOk result (all.new.entries ≡ insert_entry same_key all.old.entries key.now declaration.now) }
{
    all.insert(key.copy()?, declaration.copy()?)?;
    Ok(())
}
