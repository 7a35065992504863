//! What was ignored, and why.

/// Where a rule of the sheet or an item of a style stands. Both are counted from 0 in their list, ignored ones included.
#[derive(Clone, Copy, Debug, PartialEq, Eq)]
pub enum NotePlace {
    Rule(u32),
    Item { element: u32, item: u32 },
}

/// Why a rule or an item is ignored. The first six are of rules, the others of items.
#[derive(Clone, Copy, Debug, PartialEq, Eq)]
pub enum Why {
    /// A rule that is no `@property` rule.
    Skipped,
    /// The prelude of an `@property` rule is no custom name.
    RuleName,
    /// An `@property` rule has no block.
    RuleBlock,
    /// An `@property` rule has no syntax string.
    RuleSyntax,
    /// An `@property` rule doesn't say whether the property inherits.
    RuleInherits,
    /// An `@property` rule lacks its initial value, or that isn't one.
    RuleInitial,
    /// An item that is an at-rule.
    AtRule,
    /// An item that is neither a declaration nor an at-rule.
    NotDeclaration,
    /// A declaration of a name that is neither custom nor of an ordinary property.
    UnknownProperty,
    /// A value that is nested deeper than 128.
    TooDeep,
    /// A value that isn't one.
    BadValue,
    /// A value with a `var()` that is no reference.
    BadVar,
}

/// A rule or an item that is ignored.
#[derive(Clone, Copy, Debug, PartialEq, Eq)]
pub struct Note {
    pub place: NotePlace,
    pub why: Why,
}
