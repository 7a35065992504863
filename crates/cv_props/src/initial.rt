//! The initial value that an `@property` rule gives (Properties and Values API 1, "The @property Rule").

ghost use Rattle.std.specs.Prelude.{◌≡◌, true, All, IfOk, IfSome};
ghost use Rattle.cv_spec_text.specs.Splits.{IsSpelt};
ghost use Rattle.std.specs.Option.{option_copied};
ghost use Rattle.cv_syntax.specs.declared.syntax.Syntax.TheVariants.{Any};
ghost use Rattle.cv_value_laws.specs.Values.{is_keyword};
ghost use Rattle.cv_syntax.specs.Told.{has_no_keyword};
ghost use Rattle.cv_props.specs.Registered.{IsInitial};
ghost use Rattle.cv_props.specs.Registration.{initial_value, is_universal_value, typed_initial, universal_initial};

use cv_calc::Context;
use cv_component::trim;
use cv_spec_text::{Run, Token};
use cv_syntax::Syntax;
use cv_valuation::Outcome;
use cv_value::{ValueErr, has_font_unit, match_syntax};
use cv_value_laws::values_may_be_kept;
use cv_var::{has_var, is_value};
use std::alloc::{AllocError, Global};

// Whether the list is one CSS-wide keyword.
pub(crate) fn is_keyword(tokens: &[Token]) -> bool
    ensures { result ≡ is_keyword tokens.now }
{
    match tokens {
        [Token::Ident(name)] => name.is_css_wide_keyword(),
        _ => false,
    }
}

fn is_universal_value(alloc: Global, value: &[Token]) -> Result<bool, AllocError>
    ensures { IfOk result (λ is. is ≡ is_universal_value value.now) }
{
    let may_stand = is_value(alloc, value)?;
    Ok(may_stand && !has_var(value) && !is_keyword(trim(value)))
}

// The initial value by the universal syntax.
fn universal_initial(alloc: Global, value: &Run) -> Result<Option<Outcome>, AllocError>
    ensures value { IfOk result (λ found. found ≡ universal_initial value.now) }
    ensures kept { IfOk result (λ found. IfSome found (IsInitial Any)) }
{
    if is_universal_value(alloc, value.tokens())? {
        Ok(Some(Outcome::Tokens(value.share()?)))
    } else {
        Ok(None)
    }
}

// The initial value by another syntax.
fn typed_initial(
    alloc: Global,
    x: &Context,
    syntax: &Syntax,
    value: &[Token],
) -> Result<Option<Outcome>, AllocError>
    requires typed { syntax.now ≡ Any → ⊥ }
    requires spelt { All IsSpelt value.now }
    ensures value { IfOk result (λ found. found ≡ typed_initial x.now syntax.now value.now) }
    ensures kept { has_no_keyword syntax.now ≡ true → IfOk result (λ found. IfSome found (IsInitial syntax.now)) }
{
    values_may_be_kept();
    if has_var(value) || has_font_unit(true, value) {
        return Ok(None);
    }
    match match_syntax(alloc, syntax, value, x) {
        Ok(value) => Ok(Some(Outcome::Value(value))),
        Err(ValueErr::Memory) => Err(AllocError),
        Err(_) => Ok(None),
    }
}

/// The initial value, where the written one is one; the universal syntax needs none.
pub(crate) fn initial_value(
    alloc: Global,
    x: &Context,
    syntax: &Syntax,
    written: Option<&Run>,
) -> Result<Option<Outcome>, AllocError>
    ensures value { IfOk result (λ found. found ≡ initial_value x.now syntax.now (option_copied written.entry)) }
    ensures kept { has_no_keyword syntax.now ≡ true → IfOk result (λ found. IfSome found (IsInitial syntax.now)) }
{
    match (syntax, written) {
        (Syntax::Any, None) => Ok(Some(Outcome::Invalid)),
        (Syntax::Any, Some(value)) => universal_initial(alloc, value),
        (Syntax::Of(_), None) => Ok(None),
        (Syntax::Of(_), Some(value)) => typed_initial(alloc, x, syntax, value.tokens()),
    }
}
