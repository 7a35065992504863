//! A small element that meets the premises.

ghost use Rattle.cv_spec_element.specs.Dependencies.{Edge};
ghost use Rattle.cv_spec_element.specs.Premises.{IsLawful};
ghost use Rattle.cv_spec_element.specs.Small.{size, length, small_element};

/// The premises can be met by an element with a typed property: a small one with `--length: var(--loose)` and
/// `--loose: 2em` does, and its typed name depends on `font-size` by a unit that it holds through the loose one.
pub fn small_element_is_lawful()
    ensures lawful { IsLawful small_element }
    ensures edge { Edge small_element length size }
{}
