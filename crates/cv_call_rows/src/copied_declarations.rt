//! Copies of declarations and registrations: they print what was copied.

use cv_props::{Decl, Decls, Entry, Registry};
use cv_spec_text::{Name, OutOfMemory, Token};
use cv_token::tokenise;
use cv_tokser::print;
use cv_valuation::{Key, key_text, outcome_text};
use std::alloc::Global;
use std::test::Fail;

fn printed(alloc: Global, tokens: &[Token]) -> Result<Vec<u8>, OutOfMemory> {
    let mut out = Vec::new(alloc);
    print(alloc, tokens, &mut out)?;
    Ok(out)
}

// Adds the copy of a declaration with its key, as they are printed.
fn add_declaration(
    alloc: Global,
    key: &Key,
    declaration: &Decl,
    out: &mut Vec<u8>,
) -> Result<(), OutOfMemory> {
    let copy = declaration.copy()?;
    key_text(alloc, key, out)?;
    out.extend_from_slice(if copy.important { b"! " } else { b": " })?;
    out.extend_from_slice(&printed(alloc, copy.value.tokens())?)?;
    out.extend_from_slice(b"; ")
}

// What is printed of copied declarations.
fn declared(alloc: Global, copies: &Decls) -> Result<Vec<u8>, OutOfMemory> {
    let mut out = Vec::new(alloc);
    for place in 0..copies.len() {
        let (key, declaration) = copies.at(place);
        add_declaration(alloc, key, declaration, &mut out)?;
    }
    Ok(out)
}

fn read_style(alloc: Global, style: &str) -> Result<Decls, OutOfMemory> {
    let tokens = tokenise(alloc, style)?;
    if tokens.len() >= 4000 {
        return Err(OutOfMemory);
    }
    let (declarations, _) = Decls::of_style(alloc, 0, &tokens)?;
    declarations.copy()
}

#[test]
fn declarations_are_copied(rt: HostRuntime) -> Result<(), Fail> {
    let style = "--a: 1px; WIDTH: auto ! important; --a: var(--b)";
    let copies = declared(rt.alloc(), &read_style(rt.alloc(), style)?)?;
    assert_eq!(rt;
        copies.as_slice(),
        b"--a: var(--b); width! auto; ".as_slice()
    );
    Ok(())
}

const SHEET: &str =
    "@property --a { syntax: '<length>+'; inherits: false; initial-value: 1in 2px } @property --b { syntax: '*'; inherits: true }";

const REGISTERED: &[u8] =
    b"--a Of(Items { items: [Component { kind: Length, many: Spaces }] }) = 96px 2px; --b+ Any invalid; ";

// Adds the copy of what is registered of a name, as it is printed: a `+` where it is inherited, its syntax and its initial value.
fn add_entry(
    alloc: Global,
    name: &Name,
    entry: &Entry,
    out: &mut Vec<u8>,
) -> Result<(), OutOfMemory> {
    let copy = entry.copy(alloc)?;
    out.extend_from_slice(name.text().as_bytes())?;
    out.extend_from_slice(if copy.inherits { b"+ " } else { b" " })?;
    out.extend_from_slice(format!(in alloc; "{:?} ", copy.syntax)?.as_bytes())?;
    outcome_text(alloc, &copy.initial, out)?;
    out.extend_from_slice(b"; ")
}

// What is printed of copied registrations.
fn registered(alloc: Global, copies: &Registry) -> Result<Vec<u8>, OutOfMemory> {
    let mut out = Vec::new(alloc);
    for place in 0..copies.len() {
        let (name, entry) = copies.at(place);
        add_entry(alloc, name, entry, &mut out)?;
    }
    Ok(out)
}

fn read_sheet(alloc: Global, sheet: &str) -> Result<Registry, OutOfMemory> {
    let tokens = tokenise(alloc, sheet)?;
    if tokens.len() >= 4000 {
        return Err(OutOfMemory);
    }
    let (registry, _) = Registry::of_sheet(alloc, &tokens, 1280, 720)?;
    registry.copy()
}

#[test]
fn registrations_are_copied(rt: HostRuntime) -> Result<(), Fail> {
    let copies = registered(rt.alloc(), &read_sheet(rt.alloc(), SHEET)?)?;
    assert_eq!(rt; copies.as_slice(), REGISTERED);
    Ok(())
}
