//! Tokens that are no more than a limit.

ghost use Rattle.std.specs.Prelude.{◌≡◌, ◌≤◌, All, length};
ghost use Rattle.cv_spec_text.specs.Splits.{IsSpelt};

use cv_spec_text::{Run, Token};
use std::marker::Model;

/// A list of at most as many tokens as its limit. Contracts see the list and the limit.
#[derive(Drop)]
pub struct Bounded {
    run: Run,
    limit: u32,
}

impl Model for Bounded {
    ghost use Rattle.std.specs.Prelude.{◌≤◌, length};
    ghost use Rattle.cv_subst.specs.Limited.{Limited, limited};

    ghost Value = { Limited };

    ghost view = { λ bounded. limited bounded.run bounded.limit };

    ghost invariant = { λ bounded. length bounded.run ≤ bounded.limit };
}

impl Bounded {
    /// A run of at most as many tokens as the limit.
    pub(crate) fn new(run: Run, limit: u32) -> Self
        requires { length run ≤ limit }
        ensures tokens { result.tokens ≡ run }
        ensures limit { result.limit ≡ limit }
    {
        Bounded { run, limit }
    }

    /// The most tokens that the list may have.
    pub fn limit(&self) -> u32
        ensures { result ≡ self.now.limit }
    {
        self.limit
    }

    /// The tokens, from the first to the last.
    pub fn tokens(&self) -> &[Token]
        ensures tokens { result.now ≡ self.now.tokens }
        ensures within { length self.now.tokens ≤ self.now.limit }
        ensures spelt { All IsSpelt self.now.tokens }
    {
        self.run.tokens()
    }

    /// A run of the tokens.
    pub fn into_run(self) -> Run
        ensures tokens { result ≡ self.tokens }
        ensures within { length self.tokens ≤ self.limit }
    {
        self.run
    }
}
