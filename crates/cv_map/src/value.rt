//! A value that is given as a text, and whether a property may be declared so.

ghost use Rattle.std.specs.Prelude.{◌≡◌, ◌++◌, [], All, true, IfOk, IfSome, OnOk, chars, is_none, map};
ghost use Rattle.cv_spec_text.specs.Splits.{IsSpelt};
ghost use Rattle.cv_spec_text.specs.declared.token.Token.TheVariants.{Close};
ghost use Rattle.cv_component.specs.Nesting.{completed, nesting_past};
ghost use Rattle.cv_property.specs.Grammar.{is_match};
ghost use Rattle.cv_property.specs.declared.property.Property.{Property};
ghost use Rattle.cv_valuation.specs.declared.key.Key.TheVariants.{Table};
ghost use Rattle.cv_value.specs.Matching as matching;
ghost use Rattle.cv_value_laws.specs.Values.{is_keyword};
ghost use Rattle.cv_props.specs.Kept.{fits, may_be_value, value_fault};
ghost use Rattle.cv_props.specs.Registration.{viewport};
ghost use Rattle.cv_map.specs.Lists.{may_append, may_match};
ghost use Rattle.cv_map.specs.Values.{declares, list_if, value_in};

use cv_calc::{Basis, Context};
use cv_component::{Nesting, trim, trim_run};
use cv_frac::Frac;
use cv_property::Property;
use cv_spec_text::{Run, Token};
use cv_syntax::Syntax;
use cv_token::tokenise;
use cv_valuation::Key;
use cv_value::{ValueErr, match_syntax};
use cv_var::{Declared, VarErr, has_var};
use std::alloc::{AllocError, Global};

// ---- the list of a text

// The brackets that are open at the end of the tokens.
fn open_at_end(alloc: Global, tokens: &[Token]) -> Result<Nesting, AllocError>
    ensures { IfOk result (λ nesting. nesting ≡ nesting_past [] tokens.now) }
{
    let mut nesting = Nesting::new(alloc);
    for token in tokens {
        nesting.read(token)?;
    }
    Ok(nesting)
}

// Closes the brackets that are open.
fn close(tokens: &mut Vec<Token>, brackets: Nesting) -> Result<(), AllocError>
    ensures { OnOk result (tokens.new.items ≡ tokens.old.items ++ map Close brackets) }
{
    let mut open = brackets;
    'closing: while let Some(bracket) = open.pop() {
        tokens.push(Token::Close(bracket))?;
    }
    Ok(())
}

/// The list of a value that is given as a text.
#[tactic(auto, using(cv_component::proofs::Spelt::all_completed), unfolding(crate::specs::Values::value_in, cv_component::specs::Items::declared_value))]
pub(crate) fn value_in(alloc: Global, text: &str) -> Result<Run, AllocError>
    ensures { IfOk result (λ list. list ≡ value_in (chars text.now)) }
{
    let mut tokens = tokenise(alloc, text)?;
    let open = open_at_end(alloc, &tokens)?;
    close(&mut tokens, open)?;
    Ok(trim_run(Run::of(alloc, tokens)?))
}

// ---- what may be declared

fn is_keyword(tokens: &[Token]) -> bool
    ensures { result ≡ is_keyword tokens.now }
{
    match tokens {
        [Token::Ident(name)] => name.is_css_wide_keyword(),
        _ => false,
    }
}

fn is_ordinary_value(
    alloc: Global,
    property: Property,
    value: &Declared,
) -> Result<bool, AllocError>
    ensures { IfOk result (λ may. may ≡ may_be_value (Table property) value.now) }
{
    if value.has_var() || is_keyword(trim(value.tokens())) {
        return Ok(true);
    }
    property.fits(alloc, value.tokens())
}

fn may_be_value(alloc: Global, key: &Key, value: &Declared) -> Result<bool, AllocError>
    ensures { IfOk result (λ may. may ≡ may_be_value key.now value.now) }
{
    match key {
        Key::Custom(_) => Ok(true),
        Key::Table(property) => is_ordinary_value(alloc, *property, value),
    }
}

// The list as a declaration's value, where nothing stands against it.
#[tactic(auto, unfolding(cv_props::specs::Kept::value_fault))]
fn checked(alloc: Global, list: Run) -> Result<Option<Declared>, AllocError>
    ensures { IfOk result (λ found. found ≡ list_if (is_none (value_fault list)) list) }
{
    match Declared::checked(alloc, list) {
        Ok(declared) => Ok(Some(declared)),
        Err(VarErr::TooDeep) => Ok(None),
        Err(VarErr::BadValue(_)) => Ok(None),
        Err(VarErr::BadVar(_)) => Ok(None),
        Err(VarErr::Memory) => Err(AllocError),
    }
}

/// The list as the value of a declaration of the key, if it may be one.
pub(crate) fn declared(alloc: Global, key: &Key, list: Run) -> Result<Option<Declared>, AllocError>
    ensures found { IfOk result (λ found. found ≡ list_if (declares key.now list) list) }
    ensures kept { IfOk result (λ found. IfSome found (λ value. may_be_value key.now value ≡ true)) }
{
    match checked(alloc, list)? {
        Some(value) => {
            if may_be_value(alloc, key, &value)? {
                Ok(Some(value))
            } else {
                Ok(None)
            }
        }
        None => Ok(None),
    }
}

// ---- what matches

// What relative lengths are doesn't matter.
fn any_context() -> Context
    ensures { result ≡ viewport 0 0 }
{
    Context {
        em: Frac::whole(16),
        rem: Frac::whole(16),
        width: 0,
        height: 0,
        basis: Basis::Plain,
    }
}

// Whether the list matches the syntax.
fn is_match(alloc: Global, syntax: &Syntax, list: &[Token]) -> Result<bool, AllocError>
    requires typed { syntax.now ≡ Syntax.Any → ⊥ }
    requires spelt { All IsSpelt list.now }
    ensures { IfOk result (λ is. is ≡ is_match (matching.matching syntax.now (viewport 0 0) list.now)) }
{
    match match_syntax(alloc, syntax, list, &any_context()) {
        Ok(_) => Ok(true),
        Err(ValueErr::Range) => Ok(true),
        Err(ValueErr::Mismatch) => Ok(false),
        Err(ValueErr::Memory) => Err(AllocError),
    }
}

// Whether the list may be a value of the syntax: it holds a reference, or matches.
fn may_match(alloc: Global, syntax: &Syntax, list: &[Token]) -> Result<bool, AllocError>
    requires typed { syntax.now ≡ Syntax.Any → ⊥ }
    requires spelt { All IsSpelt list.now }
    ensures { IfOk result (λ may. may ≡ may_match syntax.now list.now) }
{
    if has_var(list) {
        return Ok(true);
    }
    is_match(alloc, syntax, list)
}

// Whether the key may be declared by the list.
#[tactic(auto, using(crate::proofs::Found::is_some_list_if))]
fn is_declarable(alloc: Global, key: &Key, list: &Run) -> Result<bool, AllocError>
    ensures { IfOk result (λ is. is ≡ declares key.now list.now) }
{
    let found = declared(alloc, key, list.share()?)?;
    Ok(found.is_some())
}

/// Whether the value may be put behind a list, which makes this one.
pub(crate) fn may_append(
    alloc: Global,
    key: &Key,
    syntax: &Syntax,
    list: &Run,
    value: &Run,
) -> Result<bool, AllocError>
    requires { syntax.now ≡ Syntax.Any → ⊥ }
    ensures { IfOk result (λ may. may ≡ may_append key.now syntax.now list.now value.now) }
{
    if !is_declarable(alloc, key, value)? {
        return Ok(false);
    }
    let trimmed = trim_run(list.share()?);
    may_match(alloc, syntax, trimmed.tokens())
}
