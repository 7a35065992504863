//! Outcomes by key in a tree whose copies share its nodes.

ghost use Rattle.std.specs.Prelude.{◌≡◌, IfOk};
ghost use Rattle.std.specs.Option.{option_copied};
ghost use Rattle.cv_valuation.specs.Tries.{found, path_of, IsFork, FindsTheSame, Sets};

use crate::key::Key;
use crate::outcome::Outcome;
use std::alloc::{AllocError, Global};
use std::hash::{FoldHasher, Hash, Hasher};
use std::rc::Rc;

/// No key, or a key with its outcome, and the keys whose paths go on to the left and to the right.
#[cycle(trie)]
#[derive(Drop)]
pub(crate) enum Trie {
    Leaf,
    Fork(Rc<Node>),
}

#[cycle(trie)]
#[derive(Drop)]
pub(crate) struct Node {
    key: Key,
    outcome: Outcome,
    left: Trie,
    right: Trie,
}

/// The path of a key: from its last bit on, 1 goes to the right.
#[tactic(auto, unfolding(crate::specs::Tries::path_of))]
pub(crate) fn path_of(key: &Key) -> u64
    ensures { result ≡ path_of key.now }
{
    let mut state = FoldHasher::default();
    key.hash(&mut state);
    state.finish()
}

/// The outcome of the key, if it is there.
pub(crate) fn found<'a>(trie: &'a Trie, path: u64, key: &Key) -> Option<&'a Outcome>
    ensures { option_copied result ≡ found trie.now path key.now }
{
    match trie {
        Trie::Leaf => None,
        Trie::Fork(node) => {
            let node = node.as_ref();
            if *key == node.key {
                Some(&node.outcome)
            } else if path % 2 == 1 {
                found(&node.right, path / 2, key)
            } else {
                found(&node.left, path / 2, key)
            }
        }
    }
}

/// A tree that shares this one's nodes.
pub(crate) fn shared(trie: &Trie) -> Result<Trie, AllocError>
    ensures { IfOk result (FindsTheSame trie.now) }
{
    match trie {
        Trie::Leaf => Ok(Trie::Leaf),
        Trie::Fork(node) => Ok(Trie::Fork(node.clone()?)),
    }
}

fn fork(
    alloc: Global,
    key: Key,
    outcome: Outcome,
    left: Trie,
    right: Trie,
) -> Result<Trie, AllocError>
    ensures { IfOk result (λ trie. IsFork trie key outcome left right) }
{
    let node = Node {
        key,
        outcome,
        left,
        right,
    };
    Ok(Trie::Fork(Rc::new(alloc, node)?))
}

/// The tree with this outcome for the key, and every other as it was.
pub(crate) fn put(
    alloc: Global,
    trie: &Trie,
    path: u64,
    key: Key,
    outcome: Outcome,
) -> Result<Trie, AllocError>
    ensures { IfOk result (λ new. Sets trie.now new path key outcome) }
{
    match trie {
        Trie::Leaf => fork(alloc, key, outcome, Trie::Leaf, Trie::Leaf),
        Trie::Fork(node) => {
            let node = node.as_ref();
            if key == node.key {
                let left = shared(&node.left)?;
                let right = shared(&node.right)?;
                fork(alloc, key, outcome, left, right)
            } else if path % 2 == 1 {
                let left = shared(&node.left)?;
                let right = put(alloc, &node.right, path / 2, key, outcome)?;
                fork(
                    alloc,
                    node.key.copy()?,
                    node.outcome.copy(alloc)?,
                    left,
                    right,
                )
            } else {
                let left = put(alloc, &node.left, path / 2, key, outcome)?;
                let right = shared(&node.right)?;
                fork(
                    alloc,
                    node.key.copy()?,
                    node.outcome.copy(alloc)?,
                    left,
                    right,
                )
            }
        }
    }
}
