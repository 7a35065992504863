//! Products of sum values.

ghost use Rattle.std.specs.Prelude.{◌≡◌, [], ◌∷◌, ◌++◌, map, fold, Ok, IfOk, IfErr, OnOk};
ghost use Rattle.cv_spec_ratio.specs.Ratio.{one_ratio};
ghost use Rattle.cv_om.specs.Refusal.{IsRefusal, all_of, answer_map};
ghost use Rattle.cv_om.specs.SumValue.{item as item_of, item_product, item_products, times_row, product_row};

use crate::error::OmErr;
use crate::item::SumItem;
use crate::joining::in_range;
use crate::unit_map::product_powers;
use cv_frac::Frac;
use sqlite_items::Items;
use std::alloc::{AllocError, Global};

/// The product of two items.
fn item_product(alloc: Global, s: &SumItem, t: &SumItem) -> Result<SumItem, OmErr>
    ensures ok { IfOk result (λ product. item_product s.now t.now ≡ Ok product) }
    ensures err { IfErr result (IsRefusal (item_product s.now t.now)) }
{
    let value = match in_range(s.value.mul(t.value)) {
        Ok(value) => value,
        Err(error) => return Err(error),
    };
    match product_powers(alloc, s.units.as_slice(), t.units.as_slice()) {
        Ok(units) => Ok(SumItem { value, units }),
        Err(error) => Err(error),
    }
}

/// Adds the products of an item with each of some others.
fn push_products(
    alloc: Global,
    row: &mut Items<SumItem>,
    s: &SumItem,
    others: &[SumItem],
) -> Result<(), OmErr>
    ensures ok { OnOk result (answer_map (λ products. row.old ++ products) (all_of (map (item_product s.now) others.now)) ≡ Ok row.new) }
    ensures err { IfErr result (IsRefusal (all_of (map (item_product s.now) others.now))) }
{
    for other in others {
        match item_product(alloc, s, other) {
            Ok(product) => row.push(product)?,
            Err(error) => return Err(error),
        }
    }
    Ok(())
}

/// Each item of a row with each of some others, in order.
fn times(alloc: Global, row: &[SumItem], others: &[SumItem]) -> Result<Items<SumItem>, OmErr>
    ensures ok { IfOk result (λ products. all_of (item_products row.now others.now) ≡ Ok products) }
    ensures err { IfErr result (IsRefusal (all_of (item_products row.now others.now))) }
{
    let mut products = Items::new(alloc);
    for item in row {
        match push_products(alloc, &mut products, item, others) {
            Ok(()) => {}
            Err(error) => return Err(error),
        }
    }
    Ok(products)
}

/// A row and the rows of the further children, multiplied from the left.
fn times_all(
    alloc: Global,
    first: Items<SumItem>,
    rest: &[Items<SumItem>],
) -> Result<Items<SumItem>, OmErr>
    ensures ok { IfOk result (λ row. fold times_row (Ok first) rest.now ≡ Ok row) }
    ensures err { IfErr result (IsRefusal (fold times_row (Ok first) rest.now)) }
{
    let mut row = first;
    for others in rest {
        match times(alloc, row.as_slice(), others.as_slice()) {
            Ok(next) => row = next,
            Err(error) => return Err(error),
        }
    }
    Ok(row)
}

/// The row of the product of nothing.
#[tactic(auto, unfolding(cv_spec_ratio::specs::Ratio::one_ratio))]
fn one_row(alloc: Global) -> Result<Items<SumItem>, AllocError>
    ensures { IfOk result (λ row. row ≡ item_of one_ratio [] ∷ []) }
{
    let mut row = Items::new(alloc);
    row.push(SumItem {
        value: Frac::whole(1),
        units: Items::new(alloc),
    })?;
    Ok(row)
}

/// The row of a product.
pub(crate) fn product_row(
    alloc: Global,
    mut rows: Items<Items<SumItem>>,
) -> Result<Items<SumItem>, OmErr>
    ensures ok { IfOk result (λ row. product_row rows ≡ Ok row) }
    ensures err { IfErr result (IsRefusal (product_row rows)) }
{
    if rows.is_empty() {
        return Ok(one_row(alloc)?);
    }
    let first = rows.remove(0);
    times_all(alloc, first, rows.as_slice())
}
