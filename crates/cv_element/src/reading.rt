//! What a list is by the syntax or the grammar of a property, in the context of an element.

ghost use Rattle.std.specs.Prelude.{◌≡◌, All, false, IfOk};
ghost use Rattle.std.specs.Option.{option_copied};
ghost use Rattle.cv_spec_text.specs.Splits.{IsSpelt};
ghost use Rattle.cv_spec_valuation.specs.Registered.{is_loose};
ghost use Rattle.cv_spec_valuation.specs.Contexts.{size_of, size_above, rem_of, context_of, typed_or, inherited_from, reads_by, reads_at};
ghost use Rattle.cv_numeric.specs.declared.matched.Matched.TheVariants.{Fit};
ghost use Rattle.cv_numeric.specs.Matched.{mapped};
ghost use Rattle.cv_value.specs.declared.typed.Typed.{Typed};
ghost use Rattle.cv_property.specs.Table.{initial_of};
ghost use Rattle.cv_property.specs.Computed.{computed_of};
ghost use Rattle.cv_property.specs.Grammar.{matching_property};
ghost use Rattle.cv_valuation.specs.declared.key.Key.TheVariants.{Custom};
ghost use Rattle.cv_value.specs.Kept.{MayBeKept};
ghost use Rattle.cv_props.specs.Registered.{entry_of};

use cv_calc::{Basis, Context};
use cv_frac::Frac;
use cv_numeric::Matched;
use cv_property_laws::properties_may_be_kept;
use cv_props::{Key, Outcome, Property, Registry, Valuation};
use cv_spec_text::{Name, OutOfMemory, Run, Token};
use cv_spec_valuation::Place;
use cv_value::{Item, Typed, ValueErr, match_syntax};
use cv_value_laws::values_may_be_kept;
use std::alloc::Global;

/// The size that a value of `font-size` is.
pub fn size_of(outcome: &Outcome) -> Frac
    ensures { result ≡ size_of outcome.now }
{
    match outcome {
        Outcome::Value(Typed::One(Item::Length(size))) => *size,
        _ => Frac::whole(16),
    }
}

/// The parent's font size; on the root the initial one.
pub fn size_above(parent: Option<&Valuation>) -> Frac
    ensures { result ≡ size_above (option_copied parent.entry) }
{
    match parent {
        Some(values) => size_of(values.get(&Key::Table(Property::FontSize))),
        None => Frac::whole(16),
    }
}

fn rem_of(root: Option<Frac>, em: Frac) -> Frac
    ensures { result ≡ rem_of root em }
{
    match root {
        Some(size) => size,
        None => em,
    }
}

fn context_of(at: &Place, em: Frac) -> Context
    ensures { result ≡ context_of at.now em }
{
    Context {
        em,
        rem: rem_of(at.root, em),
        width: at.width,
        height: at.height,
        basis: Basis::Plain,
    }
}

// What the list is by the syntax of a registered name.
fn read_custom(
    alloc: Global,
    registry: &Registry,
    name: &Name,
    tokens: &[Token],
    x: &Context,
) -> Result<Matched<Typed>, OutOfMemory>
    requires firm { is_loose registry.now (Custom name.now) ≡ false }
    requires spelt { All IsSpelt tokens.now }
    ensures read { IfOk result (λ m. m ≡ reads_by (entry_of registry.now name.now) x.now tokens.now) }
    ensures kept { IfOk result (λ m. (v : Typed) → m ≡ Fit v → MayBeKept v) }
{
    values_may_be_kept();
    match registry.get(name) {
        Some(entry) => match match_syntax(alloc, &entry.syntax, tokens, x) {
            Ok(value) => Ok(Matched::Fit(value)),
            Err(ValueErr::Mismatch) => Ok(Matched::No),
            Err(ValueErr::Range) => Ok(Matched::Out),
            Err(ValueErr::Memory) => Err(OutOfMemory),
        },
        None => Ok(Matched::No),
    }
}

// The typed value that the outcome is, and the other where it is none.
fn typed_or<'a>(other: &'a Typed, outcome: &'a Outcome) -> &'a Typed
    ensures { result.now ≡ typed_or other.now outcome.now }
{
    match outcome {
        Outcome::Value(value) => value,
        _ => other,
    }
}

// The value that an ordinary property inherits.
fn inherited<'a>(parent: Option<&'a Valuation>, property: Property, initial: &'a Typed) -> &'a Typed
    requires initial { initial.now ≡ initial_of property }
    ensures inherited { result.now ≡ inherited_from (option_copied parent.entry) property }
    ensures kept { MayBeKept initial.now → MayBeKept result.now }
{
    match parent {
        Some(values) => typed_or(initial, values.get(&Key::Table(property))),
        None => initial,
    }
}

// What the list is by the grammar of an ordinary property, with its computed value, which is remembered.
fn compute_table(
    alloc: Global,
    registry: &Registry,
    parent: Option<&Valuation>,
    property: Property,
    list: &Run,
    x: &Context,
) -> Result<Matched<Typed>, OutOfMemory>
    ensures read { IfOk result (λ m. m ≡ mapped (computed_of property (inherited_from (option_copied parent.entry) property)) (matching_property property x.now list.now)) }
    ensures kept { IfOk result (λ m. (v : Typed) → m ≡ Fit v → MayBeKept v) }
{
    properties_may_be_kept();
    let initial = property.initial(alloc)?;
    match property.compute(
        alloc,
        list.tokens(),
        x,
        inherited(parent, property, &initial),
    ) {
        Ok(value) => {
            registry.remember(alloc, property, list, x, &value)?;
            Ok(Matched::Fit(value))
        }
        Err(ValueErr::Mismatch) => Ok(Matched::No),
        Err(ValueErr::Range) => Ok(Matched::Out),
        Err(ValueErr::Memory) => Err(OutOfMemory),
    }
}

// What the list is by the grammar of an ordinary property, with its computed value.
fn read_table(
    alloc: Global,
    registry: &Registry,
    parent: Option<&Valuation>,
    property: Property,
    list: &Run,
    x: &Context,
) -> Result<Matched<Typed>, OutOfMemory>
    ensures read { IfOk result (λ m. m ≡ mapped (computed_of property (inherited_from (option_copied parent.entry) property)) (matching_property property x.now list.now)) }
    ensures kept { IfOk result (λ m. (v : Typed) → m ≡ Fit v → MayBeKept v) }
{
    match registry.remembered(alloc, property, list.tokens(), x)? {
        Some(value) => Ok(Matched::Fit(value)),
        None => compute_table(alloc, registry, parent, property, list, x),
    }
}

/// What the list is by the syntax or the grammar of the property, where `em` is this size.
pub fn read(
    alloc: Global,
    registry: &Registry,
    parent: Option<&Valuation>,
    at: &Place,
    key: &Key,
    list: &Run,
    em: Frac,
) -> Result<Matched<Typed>, OutOfMemory>
    requires firm { is_loose registry.now key.now ≡ false }
    ensures read { IfOk result (λ m. m ≡ reads_at registry.now (option_copied parent.entry) at.now key.now em list.now) }
    ensures kept { IfOk result (λ m. (v : Typed) → m ≡ Fit v → MayBeKept v) }
{
    let x = context_of(at, em);
    match key {
        Key::Custom(name) => read_custom(alloc, registry, name, list.tokens(), &x),
        Key::Table(property) => read_table(alloc, registry, parent, *property, list, &x),
    }
}
