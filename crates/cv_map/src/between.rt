//! What stands between the items of a list.

ghost use Rattle.std.specs.Prelude.{◌≡◌, ◌++◌, All, IfOk, OnOk, OnSome};
ghost use Rattle.std.specs.Option.{option_copied};
ghost use Rattle.cv_spec_text.specs.Splits.{IsSpelt};
ghost use Rattle.cv_map.specs.Lists.{appended, between_items, between_many, between_tokens};

use cv_props::Decl;
use cv_spec_text::{Run, Token, copy_tokens, push_tokens};
use cv_syntax::{Many, Syntax};
use std::alloc::{AllocError, Global};

/// What stands between the items of a list.
#[derive(Clone, Copy, Debug)]
pub(crate) enum Between {
    White,
    Comma,
}

fn between_many(many: Many) -> Option<Between>
    ensures { result ≡ between_many many }
{
    match many {
        Many::One => None,
        Many::Spaces => Some(Between::White),
        Many::Commas => Some(Between::Comma),
    }
}

/// What stands between the items of the values of a syntax, if these are lists.
pub(crate) fn between_items(syntax: &Syntax) -> Option<Between>
    ensures found { result ≡ between_items syntax.now }
    ensures typed { OnSome result (syntax.now ≡ Syntax.Any → ⊥) }
{
    match syntax {
        Syntax::Any => None,
        Syntax::Of(components) => match components.as_slice() {
            [component] => between_many(component.many),
            _ => None,
        },
    }
}

fn push_between(all: &mut Vec<Token>, between: Between) -> Result<(), AllocError>
    ensures { OnOk result (all.new.items ≡ all.old.items ++ between_tokens between) }
{
    if let Between::Comma = between {
        all.push(Token::Comma)?;
    }
    all.push(Token::White)?;
    Ok(())
}

#[tactic(auto, using(crate::proofs::Spelt::all_joined))]
fn joined(
    alloc: Global,
    old: &[Token],
    between: Between,
    value: &[Token],
) -> Result<Run, AllocError>
    requires old { All IsSpelt old.now }
    requires value { All IsSpelt value.now }
    ensures { IfOk result (λ list. list ≡ old.now ++ between_tokens between ++ value.now) }
{
    let mut all = copy_tokens(alloc, old)?;
    push_between(&mut all, between)?;
    push_tokens(&mut all, value)?;
    Run::of(alloc, all)
}

/// The list of a declaration with a value behind it; the value alone where there is no declaration.
pub(crate) fn appended(
    alloc: Global,
    between: Between,
    old: Option<&Decl>,
    value: &Run,
) -> Result<Run, AllocError>
    ensures { IfOk result (λ list. list ≡ appended between (option_copied old.entry) value.now) }
{
    match old {
        Some(declaration) => joined(alloc, declaration.value.tokens(), between, value.tokens()),
        None => value.share(),
    }
}
