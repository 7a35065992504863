//! The graph of references among the declarations of an element, by their places.

ghost use Rattle.std.specs.Prelude.{◌≡◌, ◌≢◌, ◌↔◌, ◌<◌, ◌≤◌, ℕ, [], length, eqb, bytes_eq, IfOk, OnOk};
ghost use Rattle.std.specs.List.{IsDistinct};
ghost use Rattle.cv_graph.specs.Edges.{targets, most_targets, HasEdge};
ghost use Rattle.cv_valuation.specs.declared.key.Key.TheVariants.{Custom};
ghost use Rattle.cv_element.specs.Counting.{declared_count, references_at};
ghost use Rattle.cv_element.specs.Places.{Connects, IsFound, IsPlaceOf, RefersAt};
ghost use Rattle.cv_element.specs.Settling.{key_at};

use cv_graph::Graph;
use cv_props::{Decls, Key, properties_are_found};
use cv_spec_text::{Name, OutOfMemory};
use std::alloc::Global;

// The place of the name, if it is declared.
fn place_of(decls: &Decls, name: &Name) -> Result<Option<usize>, OutOfMemory>
    ensures { IfOk result (IsFound decls.now name.now) }
{
    let key = Key::Custom(name.copy()?);
    Ok(decls.index_of(&key))
}

// An edge to the reference, if it is declared.
fn connect_one(
    graph: &mut Graph,
    from: u32,
    decls: &Decls,
    reference: &Name,
) -> Result<(), OutOfMemory>
    requires from { from < length graph.old }
    requires nodes { length graph.old ≡ length decls.now }
    requires few { length decls.now ≤ most_targets }
    requires once { IsDistinct eqb (targets graph.old from) }
    requires numbers { (to : ℕ) → HasEdge graph.old from to → to < length decls.now }
    requires new { (to : ℕ) → HasEdge graph.old from to → key_at decls.now to ≢ Custom reference.now }
    ensures connects { OnOk result (Connects decls.now reference.now (targets graph.old from) (targets graph.new from)) }
    ensures others { OnOk result ((node : ℕ) → node ≢ from → targets graph.new node ≡ targets graph.old node) }
    ensures count { OnOk result (length graph.new ≡ length graph.old) }
{
    let found = place_of(decls, reference)?;
    match found {
        Some(to) => {
            graph.add_edge(from, to as u32)?;
            Ok(())
        }
        None => Ok(()),
    }
}

// An edge to each of the references that is declared.
fn connect(
    graph: &mut Graph,
    from: u32,
    decls: &Decls,
    references: &[Name],
) -> Result<(), OutOfMemory>
    requires from { from < length graph.old }
    requires nodes { length graph.old ≡ length decls.now }
    requires few { length decls.now ≤ most_targets }
    requires none { targets graph.old from ≡ [] }
    requires distinct { IsDistinct bytes_eq references.now }
    ensures edges { OnOk result ((to : ℕ) → HasEdge graph.new from to ↔ IsPlaceOf decls.now references.now to) }
    ensures bound { OnOk result (length (targets graph.new from) ≤ declared_count decls.now references.now) }
    ensures once { OnOk result (IsDistinct eqb (targets graph.new from)) }
    ensures others { OnOk result ((node : ℕ) → node ≢ from → targets graph.new node ≡ targets graph.old node) }
    ensures count { OnOk result (length graph.new ≡ length graph.old) }
{
    properties_are_found();
    decls.len();
    for place in 0..references.len() {
        connect_one(graph, from, decls, &references[place])?;
    }
    Ok(())
}

// The edges of the declaration at this place.
fn add_references(decls: &Decls, place: u32, graph: &mut Graph) -> Result<(), OutOfMemory>
    requires place { place < length graph.old }
    requires nodes { length graph.old ≡ length decls.now }
    requires few { length decls.now ≤ most_targets }
    requires none { targets graph.old place ≡ [] }
    ensures edges { OnOk result ((to : ℕ) → HasEdge graph.new place to ↔ RefersAt decls.now place to) }
    ensures bound { OnOk result (length (targets graph.new place) ≤ references_at decls.now place) }
    ensures once { OnOk result (IsDistinct eqb (targets graph.new place)) }
    ensures others { OnOk result ((node : ℕ) → node ≢ place → targets graph.new node ≡ targets graph.old node) }
    ensures count { OnOk result (length graph.new ≡ length graph.old) }
{
    properties_are_found();
    decls.len();
    let (_, declaration) = decls.at(place as usize);
    let references = declaration.value.references()?;
    connect(graph, place, decls, &references)?;
    Ok(())
}

/// The graph whose nodes are the places of the declarations, with an edge for each reference of one to another.
pub fn references(alloc: Global, decls: &Decls) -> Result<Graph, OutOfMemory>
    requires few { length decls.now ≤ most_targets }
    ensures count { IfOk result (λ graph. length graph ≡ length decls.now) }
    ensures edges { IfOk result (λ graph. (from to : ℕ) → from < length graph → HasEdge graph from to ↔ RefersAt decls.now from to) }
    ensures bound { IfOk result (λ graph. (from : ℕ) → from < length graph → length (targets graph from) ≤ references_at decls.now from) }
    ensures once { IfOk result (λ graph. (from : ℕ) → from < length graph → IsDistinct eqb (targets graph from)) }
{
    let count = decls.len() as u32;
    let mut graph = Graph::new(alloc, count)?;
    for place in 0..count {
        add_references(decls, place, &mut graph)?;
    }
    Ok(graph)
}
