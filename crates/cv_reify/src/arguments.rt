//! The arguments of a declared colour, and whether its numbers are in range.

ghost use Rattle.std.specs.Prelude.{◌≡◌, ◌&&◌, ◌||◌, not, IfOk, IsSome, map, option_map};
ghost use Rattle.std.specs.List.{list_any};
ghost use Rattle.cv_component.specs.Blocks.{opened_at};
ghost use Rattle.cv_calcread.specs.Answer as answers;
ghost use Rattle.cv_calcread.specs.Literals.{is_in_range};
ghost use Rattle.cv_colorread.specs.Colors as colors;
ghost use Rattle.cv_property.specs.Grammar.{is_match as is_some_match};
ghost use Rattle.cv_props.specs.Registration.{viewport};
ghost use Rattle.cv_reify.specs.Arguments as arguments_of;

use cv_calc::{Basis, Context};
use cv_calcread::{CalcErr, read_calc};
use cv_component::{Separator, comma_parts, matching, parts, spaced_parts, trim};
use cv_frac::Frac;
use cv_numeric::{Matched, Range, number, percentage};
use cv_spec_text::{Name, Token};
use std::alloc::{AllocError, Global};

/// A context, for what no context changes.
fn any_context() -> Context
    ensures { result ≡ viewport 0 0 }
{
    Context {
        em: Frac::whole(16),
        rem: Frac::whole(16),
        width: 0,
        height: 0,
        basis: Basis::Plain,
    }
}

fn is_match(found: Matched<Frac>) -> bool
    ensures { result ≡ is_some_match found }
{
    match found {
        Matched::No => false,
        Matched::Out => true,
        Matched::Fit(_) => true,
    }
}

fn is_number(alloc: Global, tokens: &[Token]) -> Result<bool, AllocError>
    ensures { IfOk result (λ is. is ≡ arguments_of.is_number tokens.now) }
{
    Ok(is_match(number(alloc, Range::All, tokens, &any_context())?))
}

fn is_percentage(alloc: Global, tokens: &[Token]) -> Result<bool, AllocError>
    ensures { IfOk result (λ is. is ≡ arguments_of.is_percentage tokens.now) }
{
    Ok(is_match(percentage(alloc, tokens, &any_context())?))
}

fn are_numbers(
    alloc: Global,
    red: &[Token],
    green: &[Token],
    blue: &[Token],
) -> Result<bool, AllocError>
    ensures { IfOk result (λ are. are ≡ arguments_of.are_numbers red.now green.now blue.now) }
{
    Ok(is_number(alloc, red)? && is_number(alloc, green)? && is_number(alloc, blue)?)
}

fn are_percentages(
    alloc: Global,
    red: &[Token],
    green: &[Token],
    blue: &[Token],
) -> Result<bool, AllocError>
    ensures { IfOk result (λ are. are ≡ arguments_of.are_percentages red.now green.now blue.now) }
{
    Ok(is_percentage(alloc, red)? && is_percentage(alloc, green)? && is_percentage(alloc, blue)?)
}

fn are_channels(
    alloc: Global,
    red: &[Token],
    green: &[Token],
    blue: &[Token],
) -> Result<bool, AllocError>
    ensures { IfOk result (λ are. are ≡ arguments_of.are_channels red.now green.now blue.now) }
{
    Ok(are_numbers(alloc, red, green, blue)? || are_percentages(alloc, red, green, blue)?)
}

fn is_alpha(alloc: Global, tokens: &[Token]) -> Result<bool, AllocError>
    ensures { IfOk result (λ is. is ≡ arguments_of.is_alpha tokens.now) }
{
    Ok(is_number(alloc, tokens)? || is_percentage(alloc, tokens)?)
}

/// Whether these are the arguments of the legacy syntax, with commas between them.
fn is_legacy(alloc: Global, arguments: &[&[Token]]) -> Result<bool, AllocError>
    ensures { IfOk result (λ is. is ≡ arguments_of.is_legacy (map (λ list. list.now) arguments.now)) }
{
    match arguments {
        [red, green, blue] => are_channels(alloc, red, green, blue),
        [red, green, blue, alpha] => {
            Ok(are_channels(alloc, red, green, blue)? && is_alpha(alloc, alpha)?)
        }
        _ => Ok(false),
    }
}

/// The channels, between whitespace, and the alpha behind a `/`.
fn modern_arguments<'a>(
    alloc: Global,
    lists: &[&'a [Token]],
) -> Result<Vec<&'a [Token]>, AllocError>
    ensures { IfOk result (λ all. map (λ list. list.now) all.items ≡ arguments_of.modern_arguments (map (λ list. list.now) lists.now)) }
{
    match lists {
        [channels] => spaced_parts(alloc, channels),
        [channels, alpha] => {
            let mut all = spaced_parts(alloc, channels)?;
            all.push(trim(alpha))?;
            Ok(all)
        }
        _ => Ok(Vec::new(alloc)),
    }
}

/// The arguments of a colour function, given what stands within it.
fn arguments_within<'a>(alloc: Global, inner: &'a [Token]) -> Result<Vec<&'a [Token]>, AllocError>
    ensures { IfOk result (λ all. map (λ list. list.now) all.items ≡ arguments_of.arguments_in (Some inner.now)) }
{
    let between_commas = comma_parts(alloc, inner)?;
    if is_legacy(alloc, &between_commas)? {
        return Ok(between_commas);
    }
    let lists = parts(alloc, Separator::Solidus, inner)?;
    modern_arguments(alloc, &lists)
}

/// What stands within the function that the list begins with, where nothing follows it.
fn inside(tokens: &[Token]) -> Option<&[Token]>
    requires { IsSome (opened_at tokens.now 0) }
    ensures { option_map (λ list. list.now) result ≡ colors.inside tokens.now }
{
    match matching(tokens, 0) {
        None => Some(&tokens[1..]),
        Some(end) => {
            if end + 1 == tokens.len() {
                Some(&tokens[1..end])
            } else {
                None
            }
        }
    }
}

/// The arguments of a function that the list begins with.
fn arguments_from<'a>(alloc: Global, tokens: &'a [Token]) -> Result<Vec<&'a [Token]>, AllocError>
    requires { IsSome (opened_at tokens.now 0) }
    ensures { IfOk result (λ all. map (λ list. list.now) all.items ≡ arguments_of.arguments_in (colors.inside tokens.now)) }
{
    match inside(tokens) {
        None => Ok(Vec::new(alloc)),
        Some(inner) => arguments_within(alloc, inner),
    }
}

/// The arguments of a colour function; other colours have none.
fn arguments<'a>(alloc: Global, tokens: &'a [Token]) -> Result<Vec<&'a [Token]>, AllocError>
    ensures { IfOk result (λ all. map (λ list. list.now) all.items ≡ arguments_of.arguments tokens.now) }
{
    match tokens {
        [Token::Function(_), ..] => arguments_from(alloc, tokens),
        _ => Ok(Vec::new(alloc)),
    }
}

/// Whether a list is a math function that is refused for a number or a divisor that is out of range.
fn is_wide_function(alloc: Global, tokens: &[Token]) -> Result<bool, AllocError>
    ensures { IfOk result (λ is. is ≡ arguments_of.is_wide_function tokens.now) }
{
    match read_calc(alloc, tokens) {
        Ok(_) => Ok(false),
        Err(CalcErr::Range { .. }) => Ok(true),
        Err(CalcErr::NoCalc) => Ok(false),
        Err(CalcErr::NoType) => Ok(false),
        Err(CalcErr::DivZero(_)) => Ok(false),
        Err(CalcErr::Memory) => Err(AllocError),
    }
}

#[tactic(auto, unfolding(cv_calcread::specs::Literals::is_in_range))]
fn is_wide_number(spelling: &Name) -> bool
    ensures { result ≡ not (is_in_range spelling.now) }
{
    match Frac::read_spelling(spelling) {
        Ok(_) => false,
        Err(_) => true,
    }
}

/// Whether a token is a number that is out of range.
fn is_wide(token: &Token) -> bool
    ensures { result ≡ answers.is_wide token.now }
{
    match token {
        Token::Number(n) => is_wide_number(n),
        Token::Percentage(n) => is_wide_number(n),
        Token::Dimension(n, _) => is_wide_number(n),
        _ => false,
    }
}

fn has_wide_number(tokens: &[Token]) -> bool
    ensures { result ≡ list_any answers.is_wide tokens.now }
{
    tokens.iter().any(|token| is_wide(token))
}

/// Whether a number in a list is out of range, or a divisor of numbers alone is.
fn is_wide_argument(alloc: Global, tokens: &[Token]) -> Result<bool, AllocError>
    ensures { IfOk result (λ is. is ≡ arguments_of.is_wide_argument tokens.now) }
{
    if has_wide_number(tokens) {
        return Ok(true);
    }
    is_wide_function(alloc, tokens)
}

fn has_wide_argument(alloc: Global, lists: &[&[Token]]) -> Result<bool, AllocError>
    ensures { IfOk result (λ has. has ≡ list_any arguments_of.is_wide_argument (map (λ list. list.now) lists.now)) }
{
    for list in lists {
        if is_wide_argument(alloc, list)? {
            return Ok(true);
        }
    }
    Ok(false)
}

/// Whether a number of a colour is out of range, or a divisor is.
pub(crate) fn is_wide_color(alloc: Global, tokens: &[Token]) -> Result<bool, AllocError>
    ensures { IfOk result (λ is. is ≡ arguments_of.is_wide_color tokens.now) }
{
    let arguments = arguments(alloc, tokens)?;
    has_wide_argument(alloc, &arguments)
}
