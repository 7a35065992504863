//! Which declarations read the font size: ordinary ones, and custom ones of a syntax with lengths that hold a unit which is relative to it
//! (Properties and Values API 1, "Dependency Cycles via Relative Units").

ghost use Rattle.std.specs.Prelude.{◌≡◌, ◌↔◌, ◌<◌, ◌≤◌, ◌≢◌, ◌||◌, if◌then◌else◌, [], ◌∷◌, ◌++◌, ℕ, true, false, length, eqb, is_none, Some, slice_get, slice_index_or, IfOk, OnOk};
ghost use Rattle.std.specs.List.{IsDistinct, list_any};
ghost use Rattle.std.specs.Option.{option_copied};
ghost use Rattle.cv_graph.specs.Edges.{targets, most_targets, edge_count, HasEdge};
ghost use Rattle.cv_cycle.specs.Marks.{IsMarked};
ghost use Rattle.cv_var.specs.Flat.{flat, flattened};
ghost use Rattle.cv_var.specs.References.{pieces_of};
ghost use Rattle.cv_valuation.specs.declared.key.Key.TheVariants.{Table};
ghost use Rattle.cv_property.specs.declared.property.Property.TheVariants.{FontSize};
ghost use Rattle.cv_spec_valuation.specs.Registered.{is_loose, initial_at};
ghost use Rattle.cv_spec_valuation.specs.Computed.{ParentStandsUnder};
ghost use Rattle.cv_spec_valuation.specs.Element.{the_element};
ghost use Rattle.cv_element.specs.Counting.{references_at, edge_most};
ghost use Rattle.cv_element.specs.Holding.{piece_has_font, piece_is_keyword, declares_font, declares_keyword, outcome_has_font, some_has_font, takes_font, owns_font, lends_font, reads_size, with_size, some_piece, IsSizedAt, BeginsFont, HoldsFont, NeedsAt};
ghost use Rattle.cv_element.specs.Places.{RefersAt};
ghost use Rattle.cv_element.specs.Settling.{key_at};
ghost use Rattle.cv_element.specs.Values.{held_by, start_at};

use crate::keywords::keyword_of;
use crate::values::{inherits, is_loose};
use cv_calc_laws::font_units_are_told;
use cv_cycle::reaching;
use cv_graph::{Graph, Steps};
use cv_property_laws::properties_may_be_kept;
use cv_props::{Decls, Key, Outcome, Property, Registry, Valuation, properties_are_found};
use cv_spec_text::{Name, OutOfMemory};
use cv_spec_valuation::Place;
use cv_value::has_font_unit;
use cv_value_laws::{items_are_free, matches_alike, matches_ignore_contexts, texts_are_split};
use cv_var::{Declared, Part};
use std::alloc::Global;
use std::marker::Brand;
use std::slice;
use std::sync::ledger::{Blank, Ledger};

// Whether the part is a token with a font unit.
fn piece_has_font(root: bool, part: Part<'_>) -> bool
    ensures { result ≡ piece_has_font root (flat part.entry) }
{
    match part {
        Part::Token(token) => has_font_unit(root, slice::from_ref(token)),
        Part::Reference { .. } => false,
    }
}

// Whether the part is a CSS-wide keyword.
fn piece_is_keyword(part: Part<'_>) -> bool
    ensures { result ≡ piece_is_keyword (flat part.entry) }
{
    match part {
        Part::Token(token) => keyword_of(token).is_some(),
        Part::Reference { .. } => false,
    }
}

// Whether the piece of this number has a font unit.
fn font_at(root: bool, declared: &Declared, number: usize) -> bool
    ensures { result ≡ some_piece (piece_has_font root) (slice_get (flattened (pieces_of declared.now)) number) }
{
    match declared.part(number) {
        Some(part) => piece_has_font(root, part),
        None => false,
    }
}

// Whether the piece of this number is a CSS-wide keyword.
fn keyword_at(declared: &Declared, number: usize) -> bool
    ensures { result ≡ some_piece piece_is_keyword (slice_get (flattened (pieces_of declared.now)) number) }
{
    match declared.part(number) {
        Some(part) => piece_is_keyword(part),
        None => false,
    }
}

fn either(a: bool, b: bool) -> bool
    ensures { result ≡ (a || b) }
{
    a || b
}

// Whether a token of the declaration has a font unit, at any depth.
fn declares_font(root: bool, declared: &Declared) -> bool
    ensures { result ≡ declares_font root declared.now }
{
    let mut has = false;
    for number in 0..declared.part_count() {
        let here = font_at(root, declared, number);
        has = either(has, here);
    }
    has
}

// Whether a token of the declaration is a CSS-wide keyword, at any depth.
fn declares_keyword(declared: &Declared) -> bool
    ensures { result ≡ declares_keyword declared.now }
{
    let mut has = false;
    for number in 0..declared.part_count() {
        let here = keyword_at(declared, number);
        has = either(has, here);
    }
    has
}

// Whether the outcome is a list with a font unit.
fn outcome_has_font(root: bool, outcome: &Outcome) -> bool
    ensures { result ≡ outcome_has_font root outcome.now }
{
    match outcome {
        Outcome::Tokens(list) => has_font_unit(root, list.tokens()),
        Outcome::Value(_) | Outcome::Invalid => false,
    }
}

// Whether the parent's outcome is a list with a font unit.
fn parent_has_font(root: bool, parent: Option<&Valuation>, key: &Key) -> bool
    ensures { result ≡ some_has_font root (held_by (option_copied parent.entry) key.now) }
{
    match parent {
        Some(values) => outcome_has_font(root, values.get(key)),
        None => false,
    }
}

// Whether the initial value is a list with a font unit.
fn initial_has_font(root: bool, registry: &Registry, key: &Key) -> bool
    ensures { result ≡ outcome_has_font root (initial_at registry.now key.now) }
{
    match key {
        Key::Custom(name) => match registry.get(name) {
            Some(entry) => outcome_has_font(root, &entry.initial),
            None => false,
        },
        Key::Table(_) => false,
    }
}

// Whether a list that the property may take in place of its own has a font unit.
fn takes_font(root: bool, registry: &Registry, parent: Option<&Valuation>, key: &Key) -> bool
    ensures { result ≡ takes_font root registry.now (option_copied parent.entry) key.now }
{
    initial_has_font(root, registry, key) || parent_has_font(root, parent, key)
}

// Whether the declared property owns a font unit.
fn owns_font(
    root: bool,
    registry: &Registry,
    parent: Option<&Valuation>,
    key: &Key,
    declared: &Declared,
) -> bool
    ensures { result ≡ owns_font root registry.now (option_copied parent.entry) key.now declared.now }
{
    declares_font(root, declared)
        || (is_loose(registry, key)
            && declares_keyword(declared)
            && takes_font(root, registry, parent, key))
}

// Whether the list that the property has undeclared has a font unit.
fn start_has_font(root: bool, registry: &Registry, parent: Option<&Valuation>, key: &Key) -> bool
    ensures { result ≡ outcome_has_font root (start_at registry.now (option_copied parent.entry) key.now) }
{
    match parent {
        Some(values) if inherits(registry, key) => outcome_has_font(root, values.get(key)),
        _ => initial_has_font(root, registry, key),
    }
}

// Whether the name isn't declared, is loose, and has a font unit.
fn lends_font(
    root: bool,
    registry: &Registry,
    decls: &Decls,
    parent: Option<&Valuation>,
    name: &Name,
) -> Result<bool, OutOfMemory>
    ensures { IfOk result (λ lends. lends ≡ lends_font root registry.now decls.now (option_copied parent.entry) name.now) }
{
    let key = Key::Custom(name.copy()?);
    Ok(
        decls.get(&key).is_none()
            && is_loose(registry, &key)
            && start_has_font(root, registry, parent, &key),
    )
}

// Whether one of the names lends a font unit.
fn some_lends(
    root: bool,
    registry: &Registry,
    decls: &Decls,
    parent: Option<&Valuation>,
    names: &[Name],
) -> Result<bool, OutOfMemory>
    ensures { IfOk result (λ lends. lends ≡ list_any (lends_font root registry.now decls.now (option_copied parent.entry)) names.now) }
{
    let mut has = false;
    for place in 0..names.len() {
        let lends = lends_font(root, registry, decls, parent, &names[place])?;
        has = either(has, lends);
    }
    Ok(has)
}

// Whether the element is the root.
fn is_root(at: &Place) -> bool
    ensures { result ≡ is_none at.now.root }
{
    at.root.is_none()
}

// Whether the declaration at this place owns a font unit, or refers to a name that lends one.
fn begins_font(
    registry: &Registry,
    decls: &Decls,
    parent: Option<&Valuation>,
    at: &Place,
    place: usize,
) -> Result<bool, OutOfMemory>
    requires place { place < length decls.now }
    requires parent { ParentStandsUnder registry.now (option_copied parent) }
    ensures { IfOk result (λ begins. (most : ℕ) → (begins ≡ true) ↔ BeginsFont (the_element registry.now decls.now (option_copied parent.entry) at.now most) decls.now place) }
{
    properties_are_found();
    properties_may_be_kept();
    items_are_free();
    matches_alike();
    matches_ignore_contexts();
    texts_are_split();
    font_units_are_told();
    registry.len();
    decls.len();
    let root = is_root(at);
    let (key, declaration) = decls.at(place);
    let owns = owns_font(root, registry, parent, key, &declaration.value);
    let names = declaration.value.references()?;
    let lends = some_lends(root, registry, decls, parent, &names)?;
    Ok(either(owns, lends))
}

// Which declarations own a font unit, or refer to a name that lends one.
fn beginnings(
    alloc: Global,
    registry: &Registry,
    decls: &Decls,
    parent: Option<&Valuation>,
    at: &Place,
) -> Result<Vec<bool>, OutOfMemory>
    requires parent { ParentStandsUnder registry.now (option_copied parent) }
    ensures count { IfOk result (λ flags. length flags.items ≡ length decls.now) }
    ensures flags { IfOk result (λ flags. (place : ℕ) → place < length decls.now → (most : ℕ) → IsMarked flags.items place ↔ BeginsFont (the_element registry.now decls.now (option_copied parent.entry) at.now most) decls.now place) }
{
    let mut flags = Vec::new(alloc);
    for place in 0..decls.len() {
        let begins = begins_font(registry, decls, parent, at, place)?;
        flags.push(begins)?;
    }
    Ok(flags)
}

// Whether the declaration at this place is that of a loose name.
fn loose_at(registry: &Registry, decls: &Decls, place: usize) -> bool
    requires place { place < length decls.now }
    ensures { result ≡ is_loose registry.now (key_at decls.now place) }
{
    is_loose(registry, decls.at(place).0)
}

// Which declarations are those of loose names.
fn loose_places(alloc: Global, registry: &Registry, decls: &Decls) -> Result<Vec<bool>, OutOfMemory>
    ensures count { IfOk result (λ flags. length flags.items ≡ length decls.now) }
    ensures flags { IfOk result (λ flags. (place : ℕ) → place < length decls.now → slice_index_or flags.items place false ≡ is_loose registry.now (key_at decls.now place)) }
{
    let mut flags = Vec::new(alloc);
    for place in 0..decls.len() {
        let here = loose_at(registry, decls, place);
        flags.push(here)?;
    }
    Ok(flags)
}

// Which declarations hold a font unit.
fn held<L: Ledger>(
    alloc: Global,
    registry: &Registry,
    decls: &Decls,
    parent: Option<&Valuation>,
    at: &Place,
    graph: &Graph,
    blank: Blank,
) -> Result<Vec<bool>, OutOfMemory>
    requires name { blank.name ≡ L.name }
    requires parts { blank.parts ≡ L.parts }
    requires some { 0 < blank.parts }
    requires nodes { length graph.now ≡ length decls.now }
    requires few { length decls.now ≤ most_targets }
    requires parent { ParentStandsUnder registry.now (option_copied parent) }
    requires edges { (from to : ℕ) → from < length graph.now → HasEdge graph.now from to ↔ RefersAt decls.now from to }
    requires once { (from : ℕ) → from < length graph.now → IsDistinct eqb (targets graph.now from) }
    ensures count { IfOk result (λ marks. length marks.items ≡ length decls.now) }
    ensures held { IfOk result (λ marks. (place : ℕ) → place < length decls.now → (most : ℕ) → IsMarked marks.items place ↔ HoldsFont (the_element registry.now decls.now (option_copied parent.entry) at.now most) (key_at decls.now place)) }
{
    properties_are_found();
    decls.len();
    let mut steps = Steps::<L>::new(blank);
    let starts = beginnings(alloc, registry, decls, parent, at)?;
    let loose = loose_places(alloc, registry, decls)?;
    let marks = reaching(alloc, graph, &loose, &starts, &mut steps)?;
    Ok(marks)
}

// Whether the property reads the font size, where it is told whether it holds a font unit.
fn reads_size(registry: &Registry, key: &Key, holds: bool) -> bool
    ensures { result ≡ reads_size registry.now key.now holds }
{
    match key {
        Key::Custom(name) => match registry.get(name) {
            Some(entry) => holds && entry.syntax.has_lengths(),
            None => false,
        },
        Key::Table(property) => property.number() != Property::FontSize.number(),
    }
}

// Whether the declaration at this place reads the font size.
fn reads_at(registry: &Registry, decls: &Decls, marks: &[bool], place: usize) -> bool
    requires place { place < length decls.now }
    requires marks { length marks.now ≡ length decls.now }
    ensures { result ≡ reads_size registry.now (key_at decls.now place) (slice_index_or marks.now place false) }
{
    reads_size(registry, decls.at(place).0, marks[place])
}

// An edge from the one place to the other, if it is asked for.
fn connect_size(graph: &mut Graph, from: usize, size: usize, reads: bool) -> Result<(), OutOfMemory>
    requires few { length graph.old ≤ most_targets }
    requires from { from < length graph.old }
    requires size { size < length graph.old }
    requires room { length (targets graph.old from) < most_targets }
    ensures row { OnOk result (targets graph.new from ≡ (if reads then targets graph.old from ++ size ∷ [] else targets graph.old from)) }
    ensures others { OnOk result ((node : ℕ) → node ≢ from → targets graph.new node ≡ targets graph.old node) }
    ensures count { OnOk result (length graph.new ≡ length graph.old) }
{
    if reads {
        graph.add_edge(from as u32, size as u32)?;
        Ok(())
    } else {
        Ok(())
    }
}

// An edge to `font-size`, which stands at this place, from each that reads it.
fn connect_sizes(
    registry: &Registry,
    decls: &Decls,
    marks: &[bool],
    size: usize,
    graph: &mut Graph,
) -> Result<(), OutOfMemory>
    requires size { size < length decls.now }
    requires marks { length marks.now ≡ length decls.now }
    requires nodes { length graph.old ≡ length decls.now }
    requires few { length decls.now ≤ most_targets }
    requires named { key_at decls.now size ≡ Table FontSize }
    requires edges { (from to : ℕ) → from < length graph.old → HasEdge graph.old from to ↔ RefersAt decls.now from to }
    requires once { (from : ℕ) → from < length graph.old → IsDistinct eqb (targets graph.old from) }
    ensures rows { OnOk result ((from : ℕ) → from < length decls.now → targets graph.new from ≡ with_size registry.now (key_at decls.now from) (slice_index_or marks.now from false) size (targets graph.old from)) }
    ensures count { OnOk result (length graph.new ≡ length graph.old) }
{
    for place in 0..decls.len() {
        let reads = reads_at(registry, decls, marks, place);
        connect_size(graph, place, size, reads)?;
    }
    Ok(())
}

// The place of `font-size`, if it is declared.
fn size_place(decls: &Decls) -> Option<usize>
    ensures { IsSizedAt decls.now result }
{
    properties_are_found();
    decls.len();
    let key = Key::Table(Property::FontSize);
    decls.index_of(&key)
}

// Adds an edge to `font-size`, which stands at this place, for each declaration whose property reads it.
fn add_sizes_to(
    alloc: Global,
    registry: &Registry,
    decls: &Decls,
    parent: Option<&Valuation>,
    at: &Place,
    size: usize,
    graph: &mut Graph,
) -> Result<(), OutOfMemory>
    requires sized { IsSizedAt decls.now (Some size) }
    requires nodes { length graph.old ≡ length decls.now }
    requires few { length decls.now ≤ most_targets }
    requires parent { ParentStandsUnder registry.now (option_copied parent) }
    requires edges { (from to : ℕ) → from < length graph.old → HasEdge graph.old from to ↔ RefersAt decls.now from to }
    requires bound { (from : ℕ) → from < length graph.old → length (targets graph.old from) ≤ references_at decls.now from }
    requires once { (from : ℕ) → from < length graph.old → IsDistinct eqb (targets graph.old from) }
    ensures edges { OnOk result ((most from to : ℕ) → from < length graph.new → HasEdge graph.new from to ↔ NeedsAt (the_element registry.now decls.now (option_copied parent.entry) at.now most) decls.now from to) }
    ensures bound { OnOk result (edge_count graph.new ≤ edge_most decls.now) }
    ensures count { OnOk result (length graph.new ≡ length graph.old) }
{
    properties_are_found();
    decls.len();
    let marks = held::<Brand>(alloc, registry, decls, parent, at, graph, Blank::new(1))?;
    connect_sizes(registry, decls, &marks, size, graph)?;
    Ok(())
}

/// Adds an edge to `font-size` for each declaration whose property reads it.
pub fn add_sizes(
    alloc: Global,
    registry: &Registry,
    decls: &Decls,
    parent: Option<&Valuation>,
    at: &Place,
    graph: &mut Graph,
) -> Result<(), OutOfMemory>
    requires nodes { length graph.old ≡ length decls.now }
    requires few { length decls.now ≤ most_targets }
    requires parent { ParentStandsUnder registry.now (option_copied parent) }
    requires edges { (from to : ℕ) → from < length graph.old → HasEdge graph.old from to ↔ RefersAt decls.now from to }
    requires bound { (from : ℕ) → from < length graph.old → length (targets graph.old from) ≤ references_at decls.now from }
    requires once { (from : ℕ) → from < length graph.old → IsDistinct eqb (targets graph.old from) }
    ensures edges { OnOk result ((most from to : ℕ) → from < length graph.new → HasEdge graph.new from to ↔ NeedsAt (the_element registry.now decls.now (option_copied parent.entry) at.now most) decls.now from to) }
    ensures bound { OnOk result (edge_count graph.new ≤ edge_most decls.now) }
    ensures count { OnOk result (length graph.new ≡ length graph.old) }
{
    properties_are_found();
    decls.len();
    properties_are_found();
    decls.len();
    match size_place(decls) {
        Some(size) => add_sizes_to(alloc, registry, decls, parent, at, size, graph),
        None => Ok(()),
    }
}
