//! Where a calculation stands in a text.

/// As the first within a sum or product, alone or as the first argument, or after a sign or a comma.
#[derive(Clone, Copy)]
pub enum Place {
    Operand,
    Whole,
    Added,
    Multiplied,
    Argument,
}
