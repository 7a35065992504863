//! The stacks of the walk.

ghost use Rattle.std.specs.Prelude.{ℕ, ◌<◌, ◌≤◌, ◌+◌, ◌-◌, ◌↔◌, ◌⊎◌, ◌≡◌, length, slice_index};
ghost use Rattle.cv_cycle.specs.Marks.{IsMarked, StandsIn};
ghost use Rattle.cv_cycle.specs.State.{Copies};

/// Marks the nodes that stand in the list from the one place to the other.
pub fn mark_nodes(marks: &mut [bool], nodes: &[u32], from: usize, end: usize)
    requires order { from ≤ end }
    requires end { end ≤ length nodes.now }
    requires nodes { (place : ℕ) → place < end → slice_index nodes.now place < length marks.old }
    ensures count { length marks.new ≡ length marks.old }
    ensures marked { (node : ℕ) → IsMarked marks.new node ↔ (IsMarked marks.old node ⊎ StandsIn nodes.now from end node) }
{
    for place in from..end {
        marks[nodes[place] as usize] = true;
    }
}

/// Marks the nodes that stand in the list from the one place to the other, where there is more than one.
pub fn mark_several(marks: &mut [bool], nodes: &[u32], from: usize, end: usize)
    requires order { from ≤ end }
    requires end { end ≤ length nodes.now }
    requires nodes { (place : ℕ) → place < end → slice_index nodes.now place < length marks.old }
    ensures count { length marks.new ≡ length marks.old }
    ensures several { 1 < end - from → (node : ℕ) → IsMarked marks.new node ↔ (IsMarked marks.old node ⊎ StandsIn nodes.now from end node) }
    ensures single { end - from ≤ 1 → marks.new ≡ marks.old }
{
    if end - from > 1 {
        mark_nodes(marks, nodes, from, end);
    }
}

/// Writes the nodes that stand in the list from the one place to the other behind the first `done` of the order.
pub fn copy_nodes(order: &mut [u32], done: usize, nodes: &[u32], from: usize, end: usize)
    requires order { from ≤ end }
    requires end { end ≤ length nodes.now }
    requires room { done + (end - from) ≤ length order.old }
    ensures { Copies order.old order.new done nodes.now from end }
{
    for place in from..end {
        order[done + (place - from)] = nodes[place];
    }
}

/// How many of the first `count` places are left when those above `place` are dropped from the end.
pub fn drop_above(places: &[u32], count: usize, place: u32) -> usize
    requires { count ≤ length places.now }
    ensures fewer { result ≤ count }
    ensures dropped { (i : ℕ) → result ≤ i → i < count → place < slice_index places.now i }
    ensures kept { 0 < result → slice_index places.now (result - 1) ≤ place }
{
    let mut left = count;
    while left > 0 && places[left - 1] > place {
        left -= 1;
    }
    left
}
