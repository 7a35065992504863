//! Colours with an alpha or without one.

ghost use Rattle.std.specs.Prelude.{◌≡◌};
ghost use Rattle.cv_numeric.specs.declared.matched.Matched.{Matched};
ghost use Rattle.cv_numeric.specs.Matched.{both};
ghost use Rattle.cv_colorread.specs.Colors as colors;

use crate::channels::Channels;
use cv_color::{Color, from_channels};
use cv_frac::Frac;
use cv_numeric::Matched;

/// The colour of some channels and an alpha, in range.
fn color_of(channels: Channels, alpha: Frac) -> Color
    ensures { result ≡ colors.with_alpha channels alpha }
{
    from_channels(channels.red, channels.green, channels.blue, alpha)
}

/// Channels and an alpha: no match where one is none, else out of range where one is.
pub(crate) fn with_alpha(channels: Matched<Channels>, alpha: Matched<Frac>) -> Matched<Color>
    ensures { result ≡ both colors.with_alpha channels alpha }
{
    match (channels, alpha) {
        (Matched::No, _) => Matched::No,
        (_, Matched::No) => Matched::No,
        (Matched::Fit(channels), Matched::Fit(alpha)) => Matched::Fit(color_of(channels, alpha)),
        _ => Matched::Out,
    }
}

/// Channels without an alpha, which hide what is behind them.
pub(crate) fn without_alpha(channels: Matched<Channels>) -> Matched<Color>
    ensures { result ≡ colors.without_alpha channels }
{
    with_alpha(channels, Matched::Fit(Frac::whole(1)))
}
