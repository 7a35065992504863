//! How a list matches.

ghost use Rattle.cv_numeric.specs.Matched.{IfFit, IsMapped};

/// A list doesn't match; or it would, but a number in it is out of range; or it matches, with a value.
#[derive(Debug, Drop, PartialEq, Eq)]
pub enum Matched<T> {
    No,
    Out,
    Fit(T),
}

impl<T> Matched<T> {
    /// The same, with another value made of its value.
    pub fn map<U, F: FnOnce(T) -> U>(self, f: F) -> Matched<U>
        requires { IfFit (F.pre f) self }
        ensures { IsMapped (F.post f) self result }
    {
        match self {
            Matched::No => Matched::No,
            Matched::Out => Matched::Out,
            Matched::Fit(value) => Matched::Fit(f(value)),
        }
    }
}
