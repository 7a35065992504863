//! Property maps.

ghost use Rattle.std.specs.Prelude.{◌≡◌, [], true, Ok, Some, IfErr, IfOk, IfSome, OnErr, OnOk, chars, is_some, length};
ghost use Rattle.std.specs.Map.{remove_entry};
ghost use Rattle.std.specs.Option.{option_copied, option_to_list};
ghost use Rattle.cv_syntax.specs.declared.syntax.Syntax.{Syntax};
ghost use Rattle.cv_spec_text.specs.Keywords.{is_custom};
ghost use Rattle.indexmap.specs.IndexMap.{insert_entry};
ghost use Rattle.cv_valuation.specs.Keys.{is_custom_key, is_key, key_named, same_key};
ghost use Rattle.cv_valuation.specs.declared.key.Key.TheVariants.{Custom};
ghost use Rattle.cv_props.specs.Declaring.{MayDeclare};
ghost use Rattle.cv_props.specs.Registered.{entry_of};
ghost use Rattle.cv_props.specs.Winners.{declaration_of};
ghost use Rattle.cv_map.specs.Calls.{IsRefused, of_key};
ghost use Rattle.cv_map.specs.Lists.{append_key, append_list, append_registered, between_items, new_list};
ghost use Rattle.cv_map.specs.Values.{plain, set_key, value_in};

use crate::between::{Between, appended, between_items};
use crate::error::MapErr;
use crate::value::{declared, may_append, value_in};
use cv_props::{Decl, Decls, Registry};
use cv_spec_text::{Name, Run};
use cv_syntax::Syntax;
use cv_valuation::Key;
use cv_var::Declared;
use std::alloc::{AllocError, Global};
use std::marker::Model;

/// The declarations of an element, by the names of properties (Typed OM 1, "The StylePropertyMap"). Contracts see the list of keys and
/// declarations, in which each key stands once.
#[derive(Drop)]
pub struct PropertyMap {
    alloc: Global,
    decls: Decls,
}

impl Model for PropertyMap {
    ghost use Rattle.cv_props.specs.Winners.{Declarations};

    ghost Value = { Declarations };

    ghost view = { λ properties. properties.decls };
}

impl PropertyMap {
    /// The map of these declarations.
    pub fn of(alloc: Global, decls: Decls) -> Self
        ensures { result ≡ decls }
    {
        PropertyMap { alloc, decls }
    }

    /// The declarations.
    pub fn decls(&self) -> &Decls
        ensures { result.now ≡ self.now }
    {
        &self.decls
    }

    /// The same map again.
    pub fn copy(&self) -> Result<Self, AllocError>
        ensures { IfOk result (λ properties. properties ≡ self.now) }
    {
        Ok(PropertyMap {
            alloc: self.alloc,
            decls: self.decls.copy()?,
        })
    }

    // ---- reading

    /// The declaration of the property, if there is one.
    ///
    /// # Errors
    ///
    /// `NoProperty` where the name is that of no property; `Memory`. So it is in each of these calls.
    pub fn get(&self, name: &str) -> Result<Option<&Decl>, MapErr>
        ensures ok { IfOk result (λ found. of_key (declaration_of self.now) (key_named (chars name.now)) ≡ Ok (option_copied found)) }
        ensures refused { IfErr result (IsRefused (of_key (declaration_of self.now) (key_named (chars name.now)))) }
    {
        match key_of(self.alloc, name)? {
            Some(key) => Ok(self.decls.get(&key)),
            None => Err(MapErr::NoProperty),
        }
    }

    /// The declaration of the property in a list, which is empty where there is none.
    pub fn get_all(&self, name: &str) -> Result<Vec<Decl>, MapErr>
        ensures ok { IfOk result (λ all. of_key (λ key. option_to_list (declaration_of self.now key)) (key_named (chars name.now)) ≡ Ok all.items) }
        ensures refused { IfErr result (IsRefused (of_key (λ key. option_to_list (declaration_of self.now key)) (key_named (chars name.now)))) }
    {
        match key_of(self.alloc, name)? {
            Some(key) => Ok(listed(self.alloc, self.decls.get(&key))?),
            None => Err(MapErr::NoProperty),
        }
    }

    /// Whether the property is declared.
    pub fn has(&self, name: &str) -> Result<bool, MapErr>
        ensures ok { IfOk result (λ has. of_key (λ key. is_some (declaration_of self.now key)) (key_named (chars name.now)) ≡ Ok has) }
        ensures refused { IfErr result (IsRefused (of_key (λ key. is_some (declaration_of self.now key)) (key_named (chars name.now)))) }
    {
        match key_of(self.alloc, name)? {
            Some(key) => Ok(self.decls.get(&key).is_some()),
            None => Err(MapErr::NoProperty),
        }
    }

    /// How many properties are declared.
    pub fn size(&self) -> usize
        ensures { result ≡ length self.now }
    {
        self.decls.len()
    }

    /// The properties that are declared with their declarations, in order. Only for want of memory is there none.
    pub fn entries(&self) -> Result<Vec<(Key, Decl)>, MapErr>
        ensures ok { IfOk result (λ all. all.items ≡ self.now) }
        ensures memory { IfErr result (λ error. error ≡ MapErr.Memory) }
    {
        Ok(copied(self.alloc, &self.decls)?)
    }

    // ---- changing

    /// Declares the property by the value, not important: in its place where it is declared, else last.
    ///
    /// # Errors
    ///
    /// `NoProperty` where the name is that of no property; `BadValue` where a style wouldn't keep such a declaration, or would but for
    /// `!important`; `Memory`. After each the map is as it was.
    pub fn set(&mut self, name: &str, value: &str) -> Result<(), MapErr>
        ensures ok { OnOk result (set_key self.old (value_in (chars value.now)) (key_named (chars name.now)) ≡ Ok self.new) }
        ensures refused { IfErr result (IsRefused (set_key self.old (value_in (chars value.now)) (key_named (chars name.now)))) }
        ensures err { OnErr result (self.new ≡ self.old) }
    {
        match key_of(self.alloc, name)? {
            Some(key) => self.set_key(key, value),
            None => Err(MapErr::NoProperty),
        }
    }

    /// Puts the value behind the list that the property is declared by, of a registered property whose values are lists; declares it by the
    /// value where it isn't declared.
    ///
    /// # Errors
    ///
    /// `NoProperty` where the name is that of no property; `NotList` where it isn't registered with a syntax of one component with `+` or
    /// `#`; `BadValue` where [`PropertyMap::set`] would refuse the value, or the new list holds no `var()` and doesn't match the syntax;
    /// `Memory`. After each the map is as it was.
    pub fn append(&mut self, registry: &Registry, name: &str, value: &str) -> Result<(), MapErr>
        ensures ok { OnOk result (append_key registry.now self.old (value_in (chars value.now)) (key_named (chars name.now)) ≡ Ok self.new) }
        ensures refused { IfErr result (IsRefused (append_key registry.now self.old (value_in (chars value.now)) (key_named (chars name.now)))) }
        ensures err { OnErr result (self.new ≡ self.old) }
    {
        match key_of(self.alloc, name)? {
            Some(key) => self.append_key(registry, key, value),
            None => Err(MapErr::NoProperty),
        }
    }

    /// Takes the property's declaration out. Whether there was one.
    pub fn delete(&mut self, name: &str) -> Result<bool, MapErr>
        ensures ok { IfOk result (λ there. of_key (λ key. is_some (declaration_of self.old key)) (key_named (chars name.now)) ≡ Ok there) }
        ensures rest { OnOk result (of_key (λ key. remove_entry (same_key key) self.old) (key_named (chars name.now)) ≡ Ok self.new) }
        ensures refused { IfErr result (IsRefused (of_key (λ key. is_some (declaration_of self.old key)) (key_named (chars name.now)))) }
        ensures err { OnErr result (self.new ≡ self.old) }
    {
        match key_of(self.alloc, name)? {
            Some(key) => Ok(self.decls.remove(&key)),
            None => Err(MapErr::NoProperty),
        }
    }

    /// Takes every declaration out.
    pub fn clear(&mut self)
        ensures { self.new ≡ [] }
    {
        self.decls.clear();
    }

    // Declares the key, not important.
    fn put(&mut self, key: Key, value: Declared) -> Result<(), MapErr>
        requires { MayDeclare key (plain value) }
        ensures ok { OnOk result (self.new ≡ insert_entry same_key self.old key (plain value)) }
        ensures memory { IfErr result (λ error. error ≡ MapErr.Memory) }
        ensures err { OnErr result (self.new ≡ self.old) }
    {
        let declaration = Decl {
            value,
            important: false,
        };
        self.decls.put(key, declaration)?;
        Ok(())
    }

    fn set_key(&mut self, key: Key, value: &str) -> Result<(), MapErr>
        requires { is_key key ≡ true }
        ensures ok { OnOk result (set_key self.old (value_in (chars value.now)) (Some key) ≡ Ok self.new) }
        ensures refused { IfErr result (IsRefused (set_key self.old (value_in (chars value.now)) (Some key))) }
        ensures err { OnErr result (self.new ≡ self.old) }
    {
        let list = value_in(self.alloc, value)?;
        match declared(self.alloc, &key, list)? {
            Some(value) => self.put(key, value),
            None => Err(MapErr::BadValue),
        }
    }

    fn append_key(&mut self, registry: &Registry, key: Key, value: &str) -> Result<(), MapErr>
        requires { is_key key ≡ true }
        ensures ok { OnOk result (append_key registry.now self.old (value_in (chars value.now)) (Some key) ≡ Ok self.new) }
        ensures refused { IfErr result (IsRefused (append_key registry.now self.old (value_in (chars value.now)) (Some key))) }
        ensures err { OnErr result (self.new ≡ self.old) }
    {
        match key {
            Key::Custom(name) => self.append_registered(registry, name, value),
            Key::Table(_) => Err(MapErr::NotList),
        }
    }

    fn append_registered(
        &mut self,
        registry: &Registry,
        name: Name,
        value: &str,
    ) -> Result<(), MapErr>
        requires { is_custom name ≡ true }
        ensures ok { OnOk result (append_registered self.old (Custom name) (value_in (chars value.now)) (entry_of registry.now name) ≡ Ok self.new) }
        ensures refused { IfErr result (IsRefused (append_registered self.old (Custom name) (value_in (chars value.now)) (entry_of registry.now name))) }
        ensures err { OnErr result (self.new ≡ self.old) }
    {
        match registry.get(&name) {
            Some(entry) => self.append_list(Key::Custom(name), &entry.syntax, value),
            None => Err(MapErr::NotList),
        }
    }

    fn append_list(&mut self, key: Key, syntax: &Syntax, value: &str) -> Result<(), MapErr>
        requires { is_custom_key key ≡ true }
        ensures ok { OnOk result (append_list self.old key syntax.now (value_in (chars value.now)) (between_items syntax.now) ≡ Ok self.new) }
        ensures refused { IfErr result (IsRefused (append_list self.old key syntax.now (value_in (chars value.now)) (between_items syntax.now))) }
        ensures err { OnErr result (self.new ≡ self.old) }
    {
        let between = match between_items(syntax) {
            Some(between) => between,
            None => return Err(MapErr::NotList),
        };
        let value = value_in(self.alloc, value)?;
        match self.new_list(&key, syntax, between, value)? {
            Some(list) => self.put(key, list),
            None => Err(MapErr::BadValue),
        }
    }

    // The list of the key with the value behind it, if both may be declared.
    fn new_list(
        &self,
        key: &Key,
        syntax: &Syntax,
        between: Between,
        value: Run,
    ) -> Result<Option<Declared>, AllocError>
        requires { syntax.now ≡ Syntax.Any → ⊥ }
        ensures { IfOk result (λ list. list ≡ new_list self.now key.now syntax.now between value) }
    {
        let list = appended(self.alloc, between, self.decls.get(key), &value)?;
        if may_append(self.alloc, key, syntax, &list, &value)? {
            declared(self.alloc, key, list)
        } else {
            Ok(None)
        }
    }
}

// The key of a name.
fn key_of(alloc: Global, name: &str) -> Result<Option<Key>, AllocError>
    ensures key { IfOk result (λ key. key ≡ key_named (chars name.now)) }
    ensures kept { IfOk result (λ key. IfSome key (λ key. is_key key ≡ true)) }
{
    Key::named(alloc, name)
}

// A declaration in a list, if there is one.
fn listed(alloc: Global, declaration: Option<&Decl>) -> Result<Vec<Decl>, AllocError>
    ensures { IfOk result (λ all. all.items ≡ option_to_list (option_copied declaration.entry)) }
{
    let mut all = Vec::new(alloc);
    if let Some(declaration) = declaration {
        all.push(declaration.copy()?)?;
    }
    Ok(all)
}

// The keys and declarations again.
fn copied(alloc: Global, decls: &Decls) -> Result<Vec<(Key, Decl)>, AllocError>
    ensures { IfOk result (λ all. all.items ≡ decls.now) }
{
    let mut all = Vec::new(alloc);
    for place in 0..decls.len() {
        let (key, declaration) = decls.at(place);
        all.push((key.copy()?, declaration.copy()?))?;
    }
    Ok(all)
}
