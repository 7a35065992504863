//! Computed values that were met before.

ghost use Rattle.std.specs.Prelude.{◌≡◌, true, IfOk, IfSome};
ghost use Rattle.cv_props.specs.Remembered.{IsValueOf};

use cv_calc::{Basis, Context};
use cv_frac::Frac;
use cv_property::{Property, table_is_found};
use cv_spec_text::{Bracket, Name, Run, Token};
use cv_value::Typed;
use std::alloc::{AllocError, Global};
use std::hash::{FoldHasher, Hash, Hasher};
use std::marker::Model;

// How many values are remembered at most.
const PLACES: usize = 1024;

// A list of more tokens isn't remembered.
const MOST_TOKENS: usize = 256;

/// What a list is as a value of an ordinary property. Contracts see the value.
#[derive(Drop)]
pub(crate) struct Met {
    property: Property,
    list: Run,
    context: Context,
    value: Typed,
}

impl Model for Met {
    ghost use Rattle.cv_value.specs.declared.typed.Typed.{Typed};
    ghost use Rattle.cv_props.specs.Remembered.{IsValueOf};

    ghost Value = { Typed };

    ghost use Rattle.cv_value.specs.contracts.typed.Typed as of_typed;

    ghost coded = { of_typed.the_row.coded };

    ghost view = { λ met. met.value };

    ghost invariant = { λ met. IsValueOf met.property met.context met.list met.value };
}

/// Values that were met, each at the place that its list comes to; the last one of a place is kept.
#[derive(Drop)]
pub(crate) struct Memo {
    met: Vec<Option<Met>>,
}

// Whether the names are the same.
#[tactic(auto, using(crate::proofs::Sameness::same_texts))]
fn same_name(a: &Name, b: &Name) -> bool
    ensures { result ≡ true → a.now ≡ b.now }
{
    a == b
}

// Whether the brackets are known to be the same.
fn same_bracket(a: Bracket, b: Bracket) -> bool
    ensures { result ≡ true → a ≡ b }
{
    matches!((a, b), (Bracket::Round, Bracket::Round))
}

// Whether the tokens are known to be the same, as those of a math function.
fn same_token(a: &Token, b: &Token) -> bool
    ensures { result ≡ true → a.now ≡ b.now }
{
    match (a, b) {
        (Token::White, Token::White) => true,
        (Token::Comma, Token::Comma) => true,
        (Token::Delim(a), Token::Delim(b)) => *a == *b,
        (Token::Number(a), Token::Number(b)) => same_name(a, b),
        (Token::Percentage(a), Token::Percentage(b)) => same_name(a, b),
        (Token::Dimension(a, unit), Token::Dimension(b, other)) => {
            same_name(a, b) && same_name(unit, other)
        }
        (Token::Function(a), Token::Function(b)) => same_name(a, b),
        (Token::Open(a), Token::Open(b)) => same_bracket(*a, *b),
        (Token::Close(a), Token::Close(b)) => same_bracket(*a, *b),
        _ => false,
    }
}

// Whether the lists are known to be the same.
fn same_list(a: &[Token], b: &[Token]) -> bool
    ensures { result ≡ true → a.now ≡ b.now }
{
    let mut rest = a;
    let mut other = b;
    while let Some((token, after)) = rest.split_first() {
        let Some((twin, behind)) = other.split_first() else {
            return false;
        };
        if !same_token(token, twin) {
            return false;
        }
        rest = after;
        other = behind;
    }
    other.is_empty()
}

// Whether the fractions are the same.
#[tactic(auto, using(crate::proofs::Sameness::same_fractions))]
fn same_frac(a: Frac, b: Frac) -> bool
    ensures { result ≡ true → a ≡ b }
{
    a.top() == b.top() && a.bottom() == b.bottom()
}

// Whether the bases are known to be the same.
fn same_basis(a: Basis, b: Basis) -> bool
    ensures { result ≡ true → a ≡ b }
{
    matches!((a, b), (Basis::Plain, Basis::Plain))
}

// Whether the contexts are known to be the same.
fn same_context(a: &Context, b: &Context) -> bool
    ensures { result ≡ true → a.now ≡ b.now }
{
    same_frac(a.em, b.em)
        && same_frac(a.rem, b.rem)
        && a.width == b.width
        && a.height == b.height
        && same_basis(a.basis, b.basis)
}

// Whether the properties are the same.
#[tactic(auto, using(crate::proofs::Sameness::same_properties))]
fn same_property(a: Property, b: Property) -> bool
    ensures { result ≡ true → a ≡ b }
{
    table_is_found();
    a.number() == b.number()
}

impl Met {
    // The value, if it is that of this list.
    #[tactic(auto, using(crate::proofs::Sameness::same_value))]
    fn value_of(
        &self,
        alloc: Global,
        property: Property,
        tokens: &[Token],
        x: &Context,
    ) -> Result<Option<Typed>, AllocError>
        ensures { IfOk result (λ found. IfSome found (IsValueOf property x.now tokens.now)) }
    {
        if same_property(self.property, property)
            && same_context(&self.context, x)
            && same_list(self.list.tokens(), tokens)
        {
            Ok(Some(self.value.copy(alloc)?))
        } else {
            Ok(None)
        }
    }
}

impl Memo {
    /// No value.
    pub(crate) fn new(alloc: Global) -> Self {
        Memo {
            met: Vec::new(alloc),
        }
    }

    /// The value of the list, if it is remembered.
    pub(crate) fn value_of(
        &self,
        alloc: Global,
        property: Property,
        tokens: &[Token],
        x: &Context,
    ) -> Result<Option<Typed>, AllocError>
        ensures { IfOk result (λ found. IfSome found (IsValueOf property x.now tokens.now)) }
    {
        match self.met.get(place_of(property, tokens, x)) {
            Some(Some(met)) => met.value_of(alloc, property, tokens, x),
            _ => Ok(None),
        }
    }

    /// Remembers the value of the list.
    pub(crate) fn keep(
        &mut self,
        alloc: Global,
        property: Property,
        list: &Run,
        x: &Context,
        value: &Typed,
    ) -> Result<(), AllocError>
        requires { IsValueOf property x.now list.now value.now }
    {
        let place = place_of(property, list.tokens(), x);
        let met = Met {
            property,
            list: list.share()?,
            context: *x,
            value: value.copy(alloc)?,
        };
        self.put(place, met)
    }

    fn put(&mut self, place: usize, met: Met) -> Result<(), AllocError> {
        for _ in self.met.len()..PLACES {
            self.met.push(None)?;
        }
        if place < self.met.len() {
            self.met[place] = Some(met);
        }
        Ok(())
    }
}

/// Whether a list of so many tokens is worth remembering: a single token is read faster than found.
pub(crate) fn is_worthwhile(count: usize) -> bool {
    1 < count && count <= MOST_TOKENS
}

// The place of the list. Lists of one place take turns.
fn place_of(property: Property, tokens: &[Token], x: &Context) -> usize {
    let mut state = FoldHasher::default();
    property.number().hash(&mut state);
    x.em.top().hash(&mut state);
    for token in tokens {
        feed(token, &mut state);
    }
    state.finish() as usize % PLACES
}

// Feeds the number that the token is.
fn feed<H: Hasher>(token: &Token, state: &mut H) {
    match token {
        Token::Number(number) => number.hash(state),
        Token::Percentage(number) => number.hash(state),
        Token::Dimension(number, _) => number.hash(state),
        _ => {}
    }
}
