//! What an `@property` rule registers (Properties and Values API 1, "The @property Rule").

ghost use Rattle.std.specs.Prelude.{◌≡◌, true, map, All, Ok, Some, IfOk, IfErr, IfSome};
ghost use Rattle.std.specs.Option.{option_copied};
ghost use Rattle.cv_spec_text.specs.Splits.{IsSpelt};
ghost use Rattle.cv_component.specs.Shared.{piece_of};
ghost use Rattle.cv_spec_text.specs.Keywords.{is_custom};
ghost use Rattle.cv_props.specs.Reading.{IsIgnored, IsSpeltRule};
ghost use Rattle.cv_props.specs.Registered.{IsEntry};
ghost use Rattle.cv_props.specs.Registration.{by_block, by_descriptors, prelude_name, registration, viewport};

use crate::descriptors::{last_inherits, last_initial, last_syntax};
use crate::entry::Entry;
use crate::initial::initial_value;
use crate::note::Why;
use crate::refusal::Refusal;
use cv_calc::{Basis, Context};
use cv_component::{Rule, SharedPiece, shared_declarations, trim};
use cv_frac::Frac;
use cv_spec_text::{Name, Run, Token, copy_tokens};
use cv_syntax::syntaxes_have_no_keyword;
use std::alloc::Global;

/// What relative lengths are in a viewport of this size in px. No unit that is relative to a font is read in it.
pub(crate) fn viewport(width: u32, height: u32) -> Context
    ensures { result ≡ viewport width height }
{
    Context {
        em: Frac::whole(16),
        rem: Frac::whole(16),
        width,
        height,
        basis: Basis::Plain,
    }
}

// The custom name that the prelude is.
fn prelude_name(prelude: &[Token]) -> Option<&Name>
    ensures name { option_copied result ≡ prelude_name prelude.now }
    ensures custom { IfSome result (λ name. is_custom name.now ≡ true) }
{
    match trim(prelude) {
        [Token::Ident(name)] if name.is_custom() => Some(name),
        _ => None,
    }
}

// What the descriptors register for the name.
fn read_descriptors(
    alloc: Global,
    x: &Context,
    name: &Name,
    block: &[SharedPiece],
) -> Result<(Name, Entry), Refusal>
    requires { is_custom name.now ≡ true }
    ensures ok { IfOk result (λ entry. by_descriptors x.now name.now (map piece_of block.now) ≡ Ok entry) }
    ensures kept { IfOk result (λ entry. IsEntry entry.0 entry.1) }
    ensures err { IfErr result (IsIgnored (by_descriptors x.now name.now (map piece_of block.now))) }
{
    syntaxes_have_no_keyword();
    let syntax = match last_syntax(alloc, block)? {
        Some(syntax) => syntax,
        None => return Err(Refusal::Ignored(Why::RuleSyntax)),
    };
    let inherits = match last_inherits(block) {
        Some(inherits) => inherits,
        None => return Err(Refusal::Ignored(Why::RuleInherits)),
    };
    match initial_value(alloc, x, &syntax, last_initial(block))? {
        Some(initial) => {
            let entry = Entry {
                syntax,
                inherits,
                initial,
            };
            Ok((name.copy()?, entry))
        }
        None => Err(Refusal::Ignored(Why::RuleInitial)),
    }
}

// What the block registers for the name.
fn read_block(
    alloc: Global,
    x: &Context,
    name: &Name,
    block: &[Token],
) -> Result<(Name, Entry), Refusal>
    requires custom { is_custom name.now ≡ true }
    requires spelt { All IsSpelt block.now }
    ensures ok { IfOk result (λ entry. by_block x.now name.now (Some block.now) ≡ Ok entry) }
    ensures kept { IfOk result (λ entry. IsEntry entry.0 entry.1) }
    ensures err { IfErr result (IsIgnored (by_block x.now name.now (Some block.now))) }
{
    let block = Run::of(alloc, copy_tokens(alloc, block)?)?;
    let pieces = shared_declarations(alloc, &block)?;
    read_descriptors(alloc, x, name, &pieces)
}

/// What the rule registers, or why it is ignored.
pub(crate) fn read_rule(alloc: Global, x: &Context, rule: &Rule) -> Result<(Name, Entry), Refusal>
    requires { IsSpeltRule rule.now }
    ensures ok { IfOk result (λ entry. registration x.now rule.now ≡ Ok entry) }
    ensures kept { IfOk result (λ entry. IsEntry entry.0 entry.1) }
    ensures err { IfErr result (IsIgnored (registration x.now rule.now)) }
{
    match rule {
        Rule::At {
            name,
            prelude,
            block,
        } if name.is_word("property") => {
            let name = match prelude_name(prelude.as_slice()) {
                Some(name) => name,
                None => return Err(Refusal::Ignored(Why::RuleName)),
            };
            match block {
                Some(block) => read_block(alloc, x, name, block.as_slice()),
                None => Err(Refusal::Ignored(Why::RuleBlock)),
            }
        }
        _ => Err(Refusal::Ignored(Why::Skipped)),
    }
}
