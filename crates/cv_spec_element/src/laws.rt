//! Laws of the equations of an element.

ghost use Rattle.std.specs.Prelude.{◌≡◌, ℕ, ◌<◌, ◌↔◌, true, List, length, Ok, IsSome, ◌⊎◌};
ghost use Rattle.cv_spec_element.specs.Pieces.{Pieces, reference_or, RefersTo};
ghost use Rattle.cv_spec_element.specs.Walks.{IsCyclic};
ghost use Rattle.cv_spec_element.specs.Words.{HasUnit};
ghost use Rattle.cv_spec_element.specs.Element.{Outcome, Element};
ghost use Rattle.cv_spec_element.specs.Dependencies.{Refers, Holds, Edge, DependsOnItself, Reads};
ghost use Rattle.cv_spec_element.specs.Valuation.{Cause, SubIs, IsInvalid, IsOutOfRange, invalid_value, Gives, IsValuation, HasOneValuation, IsSettled, HasOneCause, Uses, IsUsed, IsRefused, IsRanged};
ghost use Rattle.cv_spec_element.specs.Premises.{IsNamed, IsLawful};
ghost use Rattle.cv_spec_element.specs.Numbering.{NumberEdge, IsNumbering};

/// Exactly one valuation solves the equations of an element, and the equations give each property one value. Two
/// valuations, which agree at every property, have the same causes, and the same properties are out of range in them.
pub fn has_one_valuation<K, T, V, U, M>()
    ensures exactly_one { (e : Element K T V U M) → IsLawful e → HasOneValuation e }
    ensures same_causes { (e : Element K T V U M) → IsLawful e → (values others : K → Outcome T V) → IsValuation e values → IsValuation e others → (p : K) (cause : Cause K) → IsInvalid e values p cause ↔ IsInvalid e others p cause }
    ensures same_ranges { (e : Element K T V U M) → IsLawful e → (values others : K → Outcome T V) → IsValuation e values → IsValuation e others → (p : K) → IsOutOfRange e values p ↔ IsOutOfRange e others p }
    ensures one_value { (e : Element K T V U M) → IsLawful e → (values : K → Outcome T V) (p : K) (one other : Outcome T V) → Gives e values p one → Gives e values p other → other ≡ one }
{}

/// Values that were each settled once are the valuation: each is what the equations give, where they read the values
/// of that moment, and those that they read stand unchanged at the end. No order is named; along the dependency graph
/// there always is one. The causes that held when a value was settled hold at the end, and no others; so with what is
/// out of range.
pub fn settled_values_solve<K, T, V, U, M>()
    ensures solves { (e : Element K T V U M) → IsLawful e → (values : K → Outcome T V) → ((p : K) → IsSettled e values p) → IsValuation e values }
    ensures causes { (e : Element K T V U M) → IsLawful e → (values : K → Outcome T V) (settled : (p : K) → IsSettled e values p) (p : K) (cause : Cause K) → IsInvalid e (settled p).earlier p cause ↔ IsInvalid e values p cause }
    ensures ranges { (e : Element K T V U M) → IsLawful e → (values : K → Outcome T V) (settled : (p : K) → IsSettled e values p) (p : K) → IsOutOfRange e (settled p).earlier p ↔ IsOutOfRange e values p }
{}

/// In a valuation a property is invalid with the causes that it had, and out of range if it was, where the values that it reads were the
/// same.
pub fn causes_are_kept<K, T, V, U, M>()
    ensures causes { (e : Element K T V U M) → IsLawful e → (values : K → Outcome T V) → IsValuation e values → (earlier : K → Outcome T V) (p : K) → ((q : K) → Reads e p q → earlier q ≡ values q) → (cause : Cause K) → IsInvalid e earlier p cause ↔ IsInvalid e values p cause }
    ensures ranges { (e : Element K T V U M) → IsLawful e → (values : K → Outcome T V) → IsValuation e values → (earlier : K → Outcome T V) (p : K) → ((q : K) → Reads e p q → earlier q ≡ values q) → IsOutOfRange e earlier p ↔ IsOutOfRange e values p }
{}

/// A property that is invalid at computed-value time is declared and has exactly one cause; in a valuation it has
/// the value of such a property, and each property has one cause or none.
pub fn has_one_cause<K, T, V, U, M>()
    ensures one_cause { (e : Element K T V U M) (values : K → Outcome T V) (p : K) (one other : Cause K) → IsInvalid e values p one → IsInvalid e values p other → other ≡ one }
    ensures declared { (e : Element K T V U M) (values : K → Outcome T V) (p : K) (cause : Cause K) → IsInvalid e values p cause → IsSome (e.declarations.pieces p) }
    ensures one_or_none { (e : Element K T V U M) (values : K → Outcome T V) → IsValuation e values → (p : K) → HasOneCause e values p ⊎ ((cause : Cause K) → ¬ IsInvalid e values p cause) }
    ensures value { (e : Element K T V U M) (values : K → Outcome T V) → IsValuation e values → (p : K) (cause : Cause K) → IsInvalid e values p cause → values p ≡ invalid_value e p }
{}

/// A declaration is used, invalid with a cause, or out of range, and it is one of these alone.
pub fn declarations_are_judged<K, T, V, U, M>()
    ensures used { (e : Element K T V U M) (values : K → Outcome T V) (p : K) (outcome : Outcome T V) → Uses e values p outcome → IsUsed e values p outcome }
    ensures refused { (e : Element K T V U M) (values : K → Outcome T V) (p : K) (cause : Cause K) → IsInvalid e values p cause → IsRefused e values p cause }
    ensures ranged { (e : Element K T V U M) (values : K → Outcome T V) (p : K) → IsOutOfRange e values p → IsRanged e values p }
{}

/// In every valuation each font unit in the substituted list of a property stands in its held units.
pub fn font_units_are_held<K, T, V, U, M>()
    ensures { (e : Element K T V U M) → IsLawful e → (values : K → Outcome T V) → IsValuation e values → (p : K) (list : List T) (u : U) → SubIs e values p (Ok list) → e.words.is_font_unit u ≡ true → HasUnit e.words list u → Holds e p u }
{}

/// The edges between names are the references of their declarations, in fallbacks too, used or not.
pub fn names_are_references<K, T, V, U, M>()
    ensures names { (e : Element K T V U M) (p q : K) → ¬ (q ≡ e.properties.font_size) → Edge e p q ↔ Refers e p q }
    ensures fallbacks { (n q : K) (fallback rest : Pieces K T) → RefersTo fallback q → RefersTo (reference_or n fallback rest) q }
{}

/// A number is on a cycle exactly where its property depends on itself, and each property that does has a number.
pub fn numbers_keep_cycles<K, T, V, U, M>()
    ensures same { (e : Element K T V U M) (name : ℕ → K) (rows : List (List ℕ)) → IsNamed e → IsNumbering e name rows → (i : ℕ) → i < length rows → IsCyclic (NumberEdge rows) i ↔ DependsOnItself e (name i) }
    ensures numbered { (e : Element K T V U M) (name : ℕ → K) (rows : List (List ℕ)) → IsNumbering e name rows → (p : K) → DependsOnItself e p → (i : ℕ) × (i < length rows) × (name i ≡ p) }
{}
