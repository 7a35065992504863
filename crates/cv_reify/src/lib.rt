//! Declared and computed values as objects of Typed OM.
#![tactic(auto)]

mod arguments;
mod computed;
mod declared;
mod error;
mod numbers;
mod quoted;
mod style;
mod text;

pub use computed::reify_computed;
pub use declared::reify_declared;
pub use error::ReifyErr;
pub use style::Style;
pub use text::style_text;
