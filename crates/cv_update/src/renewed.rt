//! A tree, renewed: what is computed anew, and what changes by that.

ghost use Rattle.std.specs.Prelude.{◌≡◌, ℕ, All, Err, IfOk, length, map};
ghost use Rattle.cv_valuation.specs.declared.key.Key as keys;
ghost use Rattle.cv_tree.specs.Tree as trees;
ghost use Rattle.cv_tree.specs.Tree.{AllStand, AreComputed};
ghost use Rattle.cv_update.specs.Changes.{changes};
ghost use Rattle.cv_update.specs.Names.{IsNamed, key_of};
ghost use Rattle.cv_update.specs.Renewed.{IsRenewable, IsWithin, tree_after, with_fresh};

use crate::changing::changes;
use crate::fresh::Fresh;
use crate::names::Named;
use crate::renewal::Renewal;
use crate::renewing::fresh_of;
use cv_tree::Stop;
use cv_watch::Change;
use std::alloc::Global;

/// What is computed anew, and what changes by that.
#[derive(Drop)]
pub struct Renewed {
    pub fresh: Fresh,
    pub changes: Vec<Change>,
}

/// What is computed anew once an element has other declarations, and what changes by that of the properties with these names. Only that
/// element and its descendants are computed.
///
/// # Errors
///
/// [`Stop::Range`] for a property of the first element on which one is out of range.
pub fn renew(alloc: Global, renewal: &Renewal, names: &[Named]) -> Result<Renewed, Stop>
    requires renewable { IsRenewable renewal.now }
    requires named { All IsNamed names.now }
    ensures within { IfOk result (λ renewed. IsWithin renewed.fresh renewal.now.all.now) }
    ensures computed { IfOk result (λ renewed. AreComputed (tree_after renewal.now) renewal.now.limit (length renewal.now.elements.now.items) (with_fresh renewal.now.all.now renewed.fresh)) }
    ensures stand { IfOk result (λ renewed. AllStand renewal.now.registry.now (with_fresh renewal.now.all.now renewed.fresh)) }
    ensures changes { IfOk result (λ renewed. renewed.changes.items ≡ changes (map key_of names.now) renewal.now.all.now (with_fresh renewal.now.all.now renewed.fresh)) }
    ensures range { (number : ℕ) (property : keys.Key) → result ≡ Err (Stop.Range number property) → trees.IsOutOfRange (tree_after renewal.now) renewal.now.limit number property }
{
    let fresh = match fresh_of(alloc, renewal) {
        Ok(fresh) => fresh,
        Err(stop) => return Err(stop),
    };
    match changes(alloc, names, renewal.all, &fresh) {
        Ok(changes) => Ok(Renewed { fresh, changes }),
        Err(_) => Err(Stop::Memory),
    }
}
