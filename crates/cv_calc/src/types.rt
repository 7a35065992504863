//! The types of calculations.

ghost use Rattle.std.specs.Prelude.{◌≡◌};
ghost use Rattle.std.specs.Option.{option_and_then};
ghost use Rattle.cv_calc.specs.Types as types;
ghost use Rattle.cv_calc.specs.Linear as linear;
ghost use Rattle.cv_calc.specs.Types.{multiplied as times, negated as inverse_of, hinted as hint_applied, with_hint as hint_given, tried as base_tried, else_tried as base_tried_else, tried_all as bases_tried, added_alike as sum_alike, added as sum_of, unit_type as type_of_unit, shared as hint_shared};

use crate::power::{NO_POWERS, negative, same_powers, sum, wide, within};
use crate::unit::{Base, NumType, Unit};

/// The type of a unit (CSS Typed OM 1, "Numeric Value Typing").
pub fn unit_type(unit: Unit) -> NumType
    ensures { result ≡ type_of_unit unit }
{
    match unit {
        Unit::Number => NO_POWERS,
        Unit::Percent => NumType {
            percent: 1,
            ..NO_POWERS
        },
        Unit::Deg | Unit::Grad | Unit::Turn => NumType {
            angle: 1,
            ..NO_POWERS
        },
        Unit::S | Unit::Ms => NumType {
            time: 1,
            ..NO_POWERS
        },
        Unit::Hz | Unit::Khz => NumType {
            frequency: 1,
            ..NO_POWERS
        },
        Unit::Dppx | Unit::X | Unit::Dpi | Unit::Dpcm => NumType {
            resolution: 1,
            ..NO_POWERS
        },
        Unit::Fr => NumType {
            flex: 1,
            ..NO_POWERS
        },
        Unit::Px
        | Unit::Cm
        | Unit::Mm
        | Unit::Q
        | Unit::Inch
        | Unit::Pt
        | Unit::Pc
        | Unit::Em
        | Unit::Rem
        | Unit::Ex
        | Unit::Ch
        | Unit::Ic
        | Unit::Vw
        | Unit::Vh
        | Unit::Vmin
        | Unit::Vmax => NumType {
            length: 1,
            ..NO_POWERS
        },
    }
}

/// The hint of two types, or `None` where they have different hints.
fn shared(a: Option<Base>, b: Option<Base>) -> Option<Option<Base>>
    ensures { result ≡ hint_shared a b }
{
    match (a, b) {
        (None, hint) => Some(hint),
        (Some(base), None) => Some(Some(base)),
        (Some(base), Some(other)) => {
            if base == other {
                Some(Some(base))
            } else {
                None
            }
        }
    }
}

/// The product of two types, with the first one's hint.
#[tactic(auto, unfolding(crate::specs::Types::multiplied))]
fn multiplied(s: NumType, t: NumType) -> Option<NumType>
    ensures { result ≡ times s t }
{
    within(
        sum(s.length, t.length),
        sum(s.angle, t.angle),
        sum(s.time, t.time),
        sum(s.frequency, t.frequency),
        sum(s.resolution, t.resolution),
        sum(s.flex, t.flex),
        sum(s.percent, t.percent),
        s.hint,
    )
}

/// The type of what is inverted.
fn negated(t: NumType) -> Option<NumType>
    ensures { result ≡ inverse_of t }
{
    within(
        negative(t.length),
        negative(t.angle),
        negative(t.time),
        negative(t.frequency),
        negative(t.resolution),
        negative(t.flex),
        negative(t.percent),
        t.hint,
    )
}

/// A type with the percentage's power moved to a base.
fn hinted(base: Base, t: NumType) -> Option<NumType>
    ensures { result ≡ hint_applied base t }
{
    match base {
        Base::Length => within(
            sum(t.length, t.percent),
            wide(t.angle),
            wide(t.time),
            wide(t.frequency),
            wide(t.resolution),
            wide(t.flex),
            0,
            Some(Base::Length),
        ),
        Base::Angle => within(
            wide(t.length),
            sum(t.angle, t.percent),
            wide(t.time),
            wide(t.frequency),
            wide(t.resolution),
            wide(t.flex),
            0,
            Some(Base::Angle),
        ),
        Base::Time => within(
            wide(t.length),
            wide(t.angle),
            sum(t.time, t.percent),
            wide(t.frequency),
            wide(t.resolution),
            wide(t.flex),
            0,
            Some(Base::Time),
        ),
        Base::Frequency => within(
            wide(t.length),
            wide(t.angle),
            wide(t.time),
            sum(t.frequency, t.percent),
            wide(t.resolution),
            wide(t.flex),
            0,
            Some(Base::Frequency),
        ),
        Base::Resolution => within(
            wide(t.length),
            wide(t.angle),
            wide(t.time),
            wide(t.frequency),
            sum(t.resolution, t.percent),
            wide(t.flex),
            0,
            Some(Base::Resolution),
        ),
        Base::Flex => within(
            wide(t.length),
            wide(t.angle),
            wide(t.time),
            wide(t.frequency),
            wide(t.resolution),
            sum(t.flex, t.percent),
            0,
            Some(Base::Flex),
        ),
    }
}

/// A type with a hint, where there is one.
fn with_hint(hint: Option<Base>, t: NumType) -> Option<NumType>
    ensures { result ≡ hint_given hint t }
{
    match hint {
        None => Some(t),
        Some(base) => hinted(base, t),
    }
}

/// A base, tried as the hint of two types.
fn tried(base: Base, s: NumType, t: NumType) -> Option<NumType>
    ensures { result ≡ base_tried base s t }
{
    let u = hinted(base, s)?;
    let v = hinted(base, t)?;
    if same_powers(u, v) { Some(u) } else { None }
}

/// What there is, else a base tried as the hint of two types.
fn else_tried(found: Option<NumType>, base: Base, s: NumType, t: NumType) -> Option<NumType>
    ensures { result ≡ base_tried_else found base s t }
{
    match found {
        Some(u) => Some(u),
        None => tried(base, s, t),
    }
}

/// The first base that makes two types equal.
#[tactic(auto, unfolding(crate::specs::Types::tried_all))]
fn tried_all(s: NumType, t: NumType) -> Option<NumType>
    ensures { result ≡ bases_tried s t }
{
    let length = tried(Base::Length, s, t);
    let angle = else_tried(length, Base::Angle, s, t);
    let time = else_tried(angle, Base::Time, s, t);
    let frequency = else_tried(time, Base::Frequency, s, t);
    let resolution = else_tried(frequency, Base::Resolution, s, t);
    else_tried(resolution, Base::Flex, s, t)
}

/// The sum of two types that have one hint or none.
fn added_alike(s: NumType, t: NumType) -> Option<NumType>
    ensures { result ≡ sum_alike s t }
{
    if same_powers(s, t) {
        return Some(s);
    }
    if s.percent != 0 {
        return tried_all(s, t);
    }
    if t.percent != 0 {
        return tried_all(s, t);
    }
    None
}

/// The sum of two types.
#[tactic(auto, unfolding(crate::specs::Types::added))]
fn added(s: NumType, t: NumType) -> Option<NumType>
    ensures { result ≡ sum_of s t }
{
    let hint = shared(s.hint, t.hint)?;
    let u = with_hint(hint, s)?;
    let v = with_hint(hint, t)?;
    added_alike(u, v)
}

/// The sum of two types, where there are both.
pub(crate) fn added_next(s: Option<NumType>, t: Option<NumType>) -> Option<NumType>
    ensures { result ≡ types.added_next s t }
{
    let u = s?;
    let v = t?;
    added(u, v)
}

/// A product so far, under a hint, times one more.
pub(crate) fn multiplied_next(
    hint: Option<Base>,
    s: Option<NumType>,
    t: Option<NumType>,
) -> Option<NumType>
    ensures { result ≡ types.multiplied_next hint s t }
{
    let u = s?;
    let v = t?;
    let w = with_hint(hint, v)?;
    multiplied(u, w)
}

/// The hint of the children of a product so far and of one more.
pub(crate) fn shared_next(hint: Option<Option<Base>>, t: Option<NumType>) -> Option<Option<Base>>
    ensures { result ≡ types.shared_next hint t }
{
    let first = hint?;
    let u = t?;
    shared(first, u.hint)
}

/// The type of what is inverted, where it has one.
pub(crate) fn negated_next(t: Option<NumType>) -> Option<NumType>
    ensures { result ≡ option_and_then types.negated t }
{
    let u = t?;
    negated(u)
}

/// Whether a type is that of a plain number.
pub(crate) fn is_plain(t: Option<NumType>) -> bool
    ensures { result ≡ linear.is_plain t }
{
    match t {
        None => false,
        Some(u) => same_powers(u, NO_POWERS) && u.hint.is_none(),
    }
}
