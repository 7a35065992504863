//! A checked list.

ghost use Rattle.std.specs.Prelude.{◌≡◌, ◌⊎◌, ◌↔◌, ◌<◌, ◌^◌, ℕ, List, All, Contains, bytes_eq, IfOk, IfErr, OnOk, IfSome, IsErrOf, Err, Some, length, map, option_map, slice_get};
ghost use Rattle.std.specs.List.{IsDistinct};
ghost use Rattle.cv_component.specs.Nesting.{depth};
ghost use Rattle.cv_spec_text.specs.Splits.{IsSpelt};
ghost use Rattle.cv_var.specs.Checked.{IsChecked, IsCause};
ghost use Rattle.cv_var.specs.Flat.{flat, flattened, EndsWithin, FlatPiece, IsSpeltPiece};
ghost use Rattle.cv_spec_element.specs.Pieces.{RefersTo};
ghost use Rattle.cv_var.specs.Places.{flat_at};
ghost use Rattle.cv_var.specs.Names.{names_of, firsts};
ghost use Rattle.cv_var.specs.References.{HoldNoVar, pieces_of, has_var};
ghost use Rattle.cv_var.specs.Segments.{segments_of};
ghost use Rattle.cv_var.specs.declared.refusal.VarErr.{VarErr};

use crate::flat::{Part, lent};
use crate::laws::checked_lists_hold_no_var;
use crate::names::references;
use crate::parts::{parts_in, token_count};
use crate::place::Place;
use crate::refusal::{VarErr, check_tokens};
use crate::segment::{Segment, segments_of};
use cv_spec_text::{Name, OutOfMemory, Run, Token, copy_tokens};
use sqlite_items::at;
use std::alloc::Global;
use std::marker::Model;
use std::rc::RcSlice;

/// A declaration value, nested at most 128 deep, in which each `var()` is right. Its copies share it. Contracts see its tokens.
#[derive(Drop)]
pub struct Declared {
    alloc: Global,
    list: Run,
    // None where the list has no `var()`: its parts are its tokens.
    parts: Option<RcSlice<Place>>,
}

impl Model for Declared {
    ghost use Rattle.std.specs.Prelude.{List, option_map};
    ghost use Rattle.std.specs.Rc.{rc_slice_items};
    ghost use Rattle.cv_spec_text.specs.declared.token.Token.{Token};
    ghost use Rattle.cv_var.specs.Checked.{IsChecked};
    ghost use Rattle.cv_var.specs.Places.{AreParts};

    ghost Value = { List Token };

    ghost view = { λ declared. declared.list };

    ghost invariant = { λ declared. IsChecked declared.list × AreParts declared.list (option_map (λ parts. rc_slice_items parts) declared.parts) };
}

/// Checks a list (Cascading Variables 1, "Custom Property Value Syntax" and "Using Cascading Variables: the var()
/// notation"). The empty list is a declaration value. The refusals, in this order:
///
/// - [`VarErr::TooDeep`] exactly where it is nested deeper than 128;
/// - [`VarErr::BadValue`] with the place of the first token that may not stand in a declaration value;
/// - [`VarErr::BadVar`] with the place of the first `var()` that is no reference.
pub fn check(alloc: Global, tokens: &[Token]) -> Result<Declared, VarErr>
    requires { All IsSpelt tokens.now }
    ensures ok { IfOk result (λ declared. declared ≡ tokens.now) }
    ensures checked { OnOk result (IsChecked tokens.now) }
    ensures too_deep { IsErrOf result VarErr.TooDeep ↔ (128 < depth tokens.now) }
    ensures only_where { IfErr result (λ refusal. (refusal ≡ VarErr.Memory) ⊎ IsCause tokens.now refusal) }
    ensures exactly_where { (refusal : VarErr) → IsCause tokens.now refusal → IsErrOf result refusal ⊎ IsErrOf result VarErr.Memory }
{
    match check_tokens(alloc, tokens) {
        Ok(()) => {}
        Err(refusal) => return Err(refusal),
    }
    let parts = parts_in(alloc, tokens)?;
    let list = Run::of(alloc, copy_tokens(alloc, tokens)?)?;
    Ok(Declared { alloc, list, parts })
}

impl Declared {
    /// Checks a list as [`check`] does, and keeps the run itself.
    pub fn checked(alloc: Global, list: Run) -> Result<Declared, VarErr>
        ensures ok { IfOk result (λ declared. declared ≡ list) }
        ensures checked { OnOk result (IsChecked list) }
        ensures too_deep { IsErrOf result VarErr.TooDeep ↔ (128 < depth list) }
        ensures only_where { IfErr result (λ refusal. (refusal ≡ VarErr.Memory) ⊎ IsCause list refusal) }
        ensures exactly_where { (refusal : VarErr) → IsCause list refusal → IsErrOf result refusal ⊎ IsErrOf result VarErr.Memory }
    {
        let tokens = list.tokens();
        match check_tokens(alloc, tokens) {
            Ok(()) => {}
            Err(refusal) => return Err(refusal),
        }
        let parts = parts_in(alloc, tokens)?;
        Ok(Declared { alloc, list, parts })
    }

    /// The list that was checked. No token of its pieces is a `var(`: each of these is a reference.
    pub fn tokens(&self) -> &[Token]
        ensures tokens { result.now ≡ self.now }
        ensures checked { IsChecked self.now }
        ensures spelt { All IsSpelt self.now }
        ensures plain { HoldNoVar (pieces_of self.now) }
    {
        checked_lists_hold_no_var();
        self.list.tokens()
    }

    /// The run that was checked.
    pub fn run(&self) -> &Run
        ensures { result.now ≡ self.now }
    {
        &self.list
    }

    /// Whether there is a `var()` at any depth.
    pub fn has_var(&self) -> bool
        ensures { result ≡ has_var self.now }
    {
        self.parts.is_some()
    }

    /// How many parts the list has: its tokens and references, and those of the fallbacks.
    pub fn part_count(&self) -> usize
        ensures { result ≡ length (flattened (pieces_of self.now)) }
    {
        match &self.parts {
            Some(parts) => parts.len(),
            None => token_count(self.list.tokens()),
        }
    }

    /// The part of this number. Behind a reference come the parts of its fallback.
    pub fn part(&self, number: usize) -> Option<Part<'_>>
        ensures part { option_map flat result ≡ slice_get (flattened (pieces_of self.now)) number }
        ensures within { IfSome result (λ part. EndsWithin (length (flattened (pieces_of self.now))) number (flat part)) }
        ensures spelt { IfSome result (λ part. IsSpeltPiece (flat part)) }
        ensures fits { length (flattened (pieces_of self.now)) < 2 ^ 64 }
    {
        self.part_count();
        let tokens = self.list.tokens();
        match &self.parts {
            Some(parts) => part_at(tokens, parts.as_slice(), number),
            None => lent(tokens, Place::Token(number)),
        }
    }

    /// The names of the references, those in fallbacks too, each once, in order of first place.
    pub fn references(&self) -> Result<Vec<Name>, OutOfMemory>
        ensures names { IfOk result (λ names. names.items ≡ firsts (names_of (pieces_of self.now))) }
        ensures refers { IfOk result (λ names. (name : List ℕ) → Contains names.items name ↔ RefersTo (pieces_of self.now) name) }
        ensures distinct { IfOk result (λ names. IsDistinct bytes_eq names.items) }
    {
        references(self.alloc, self)
    }

    /// The list as texts and references. No text is empty, and a fallback that is there has its own segments, be they none.
    pub fn segments(&self) -> Result<Vec<Segment>, OutOfMemory>
        ensures { IfOk result (λ segments. segments.items ≡ segments_of (pieces_of self.now)) }
    {
        segments_of(self.alloc, self.list.tokens())
    }

    /// An equal list, which shares this one's.
    pub fn copy(&self) -> Result<Self, OutOfMemory>
        ensures { IfOk result (λ declared. declared ≡ self.now) }
    {
        let parts = match &self.parts {
            Some(parts) => Some(parts.clone()?),
            None => None,
        };
        Ok(Declared {
            alloc: self.alloc,
            list: self.list.copy()?,
            parts,
        })
    }
}

// The part of this number, where these are the places of the parts.
fn part_at<'a>(tokens: &'a [Token], parts: &[Place], number: usize) -> Option<Part<'a>>
    ensures part { (pieces : List FlatPiece) → map (flat_at tokens.now) parts.now ≡ map Some pieces → option_map flat result ≡ slice_get pieces number }
    ensures spelt { All IsSpelt tokens.now → IfSome result (λ part. IsSpeltPiece (flat part)) }
{
    match at(parts, number) {
        Some(place) => lent(tokens, *place),
        None => None,
    }
}
