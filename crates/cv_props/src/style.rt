//! The declarations of a style.

ghost use Rattle.std.specs.Prelude.{◌≡◌, ◌++◌, ◌<◌, ◌≤◌, true, None, length, map, All, Ok, IfOk, IfErr, OnOk};
ghost use Rattle.cv_spec_text.specs.Splits.{IsSpelt};
ghost use Rattle.cv_component.specs.Items.{items};
ghost use Rattle.cv_component.specs.Shared.{piece_of};
ghost use Rattle.cv_valuation.specs.declared.key.Key.TheVariants.{Table};
ghost use Rattle.cv_valuation.specs.Keys.{is_key, key_named};
ghost use Rattle.cv_props.specs.Declaring.{MayDeclare};
ghost use Rattle.cv_props.specs.Kept.{declared_by, declared_by_item, kept_declarations, may_be_value, note_on, notes_on, value_fault};
ghost use Rattle.cv_props.specs.Reading.{IsIgnored, IsRefused, with_item};
ghost use Rattle.cv_props.specs.Winners.{winners};

use crate::decls::{Decl, Decls};
use crate::initial::is_keyword;
use crate::note::{Note, NotePlace, Why};
use crate::refusal::Refusal;
use cv_component::{SharedPiece, shared_declarations, trim};
use cv_property::Property;
use cv_spec_text::{Name, Run, Token, copy_tokens};
use cv_valuation::Key;
use cv_var::{Declared, VarErr};
use std::alloc::{AllocError, Global};

impl Decls {
    /// The winning declarations of an element's style, and a note on each item that is ignored, in order.
    pub fn of_style(
        alloc: Global,
        element: u32,
        tokens: &[Token],
    ) -> Result<(Decls, Vec<Note>), AllocError>
        requires spelt { All IsSpelt tokens.now }
        requires few { length tokens.now < 4294967288 }
        ensures declarations { IfOk result (λ style. style.0 ≡ winners (kept_declarations (items tokens.now))) }
        ensures notes { IfOk result (λ style. style.1.items ≡ notes_on element (items tokens.now)) }
        ensures few { IfOk result (λ style. length style.0 ≤ length tokens.now) }
    {
        let style = Run::of(alloc, copy_tokens(alloc, tokens)?)?;
        Decls::of_run(alloc, element, &style)
    }

    /// The same of a style whose list is shared: the values of its declarations share it.
    pub fn of_run(
        alloc: Global,
        element: u32,
        style: &Run,
    ) -> Result<(Decls, Vec<Note>), AllocError>
        requires { length style.now < 4294967288 }
        ensures declarations { IfOk result (λ read. read.0 ≡ winners (kept_declarations (items style.now))) }
        ensures notes { IfOk result (λ read. read.1.items ≡ notes_on element (items style.now)) }
        ensures few { IfOk result (λ read. length read.0 ≤ length style.now) }
    {
        let pieces = shared_declarations(alloc, style)?;
        of_items(alloc, element, &pieces)
    }
}

// The winning declarations of the items, and a note on each that is ignored.
fn of_items(
    alloc: Global,
    element: u32,
    pieces: &[SharedPiece],
) -> Result<(Decls, Vec<Note>), AllocError>
    requires { length pieces.now < 4294967288 }
    ensures declarations { IfOk result (λ style. style.0 ≡ winners (kept_declarations (map piece_of pieces.now))) }
    ensures notes { IfOk result (λ style. style.1.items ≡ notes_on element (map piece_of pieces.now)) }
{
    let mut decls = Decls::new(alloc);
    let mut notes = Vec::new(alloc);
    for (number, piece) in pieces.iter().enumerate() {
        let place = NotePlace::Item {
            element,
            item: number as u32,
        };
        read_into(alloc, place, piece, &mut decls, &mut notes)?;
    }
    Ok((decls, notes))
}

// Keeps what the item declares, or notes why it is ignored.
fn read_into(
    alloc: Global,
    place: NotePlace,
    piece: &SharedPiece,
    decls: &mut Decls,
    notes: &mut Vec<Note>,
) -> Result<(), AllocError>
    ensures declarations { OnOk result (decls.new ≡ with_item decls.old (piece_of piece.now)) }
    ensures notes { OnOk result (notes.new.items ≡ notes.old.items ++ note_on place (piece_of piece.now)) }
{
    match read_item(alloc, piece) {
        Ok((key, declaration)) => decls.keep(key, declaration),
        Err(Refusal::Ignored(why)) => {
            notes.push(Note { place, why })?;
            Ok(())
        }
        Err(Refusal::Memory) => Err(AllocError),
    }
}

// What the item declares.
fn read_item(alloc: Global, piece: &SharedPiece) -> Result<(Key, Decl), Refusal>
    ensures ok { IfOk result (λ declared. declared_by_item (piece_of piece.now) ≡ Ok declared) }
    ensures kept { IfOk result (λ declared. MayDeclare declared.0 declared.1) }
    ensures err { IfErr result (IsIgnored (declared_by_item (piece_of piece.now))) }
{
    match piece {
        SharedPiece::At => Err(Refusal::Ignored(Why::AtRule)),
        SharedPiece::Other => Err(Refusal::Ignored(Why::NotDeclaration)),
        SharedPiece::Decl {
            name,
            value,
            important,
        } => read_declaration(alloc, name, value.share()?, *important),
    }
}

fn read_declaration(
    alloc: Global,
    name: &Name,
    value: Run,
    important: bool,
) -> Result<(Key, Decl), Refusal>
    ensures ok { IfOk result (λ declared. declared_by (key_named name.now) (value_fault value) value important ≡ Ok declared) }
    ensures kept { IfOk result (λ declared. MayDeclare declared.0 declared.1) }
    ensures err { IfErr result (IsIgnored (declared_by (key_named name.now) (value_fault value) value important)) }
{
    let key = match Key::named(alloc, name.text())? {
        Some(key) => key,
        None => return Err(Refusal::Ignored(Why::UnknownProperty)),
    };
    let value = match checked(alloc, value) {
        Ok(value) => value,
        Err(refusal) => return Err(refusal),
    };
    if !may_be_value(alloc, &key, &value)? {
        return Err(Refusal::Ignored(Why::BadValue));
    }
    Ok((key, Decl { value, important }))
}

// The value, if nothing stands against it.
#[tactic(auto, unfolding(crate::specs::Kept::value_fault))]
fn checked(alloc: Global, value: Run) -> Result<Declared, Refusal>
    ensures ok { IfOk result (λ declared. declared ≡ value) }
    ensures kept { OnOk result (value_fault value ≡ None) }
    ensures err { IfErr result (IsRefused (value_fault value)) }
{
    match Declared::checked(alloc, value) {
        Ok(declared) => Ok(declared),
        Err(VarErr::TooDeep) => Err(Refusal::Ignored(Why::TooDeep)),
        Err(VarErr::BadValue(_)) => Err(Refusal::Ignored(Why::BadValue)),
        Err(VarErr::BadVar(_)) => Err(Refusal::Ignored(Why::BadVar)),
        Err(VarErr::Memory) => Err(Refusal::Memory),
    }
}

// Whether the value may be declared for the key.
fn may_be_value(alloc: Global, key: &Key, value: &Declared) -> Result<bool, AllocError>
    ensures { IfOk result (λ may. may ≡ may_be_value key.now value.now) }
{
    match key {
        Key::Custom(_) => Ok(true),
        Key::Table(property) => is_ordinary_value(alloc, *property, value),
    }
}

// Whether the value may be declared for the ordinary property.
fn is_ordinary_value(
    alloc: Global,
    property: Property,
    value: &Declared,
) -> Result<bool, AllocError>
    ensures { IfOk result (λ may. may ≡ may_be_value (Table property) value.now) }
{
    if value.has_var() || is_keyword(trim(value.tokens())) {
        return Ok(true);
    }
    property.fits(alloc, value.tokens())
}
