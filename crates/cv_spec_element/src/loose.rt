//! Laws of elements of unregistered names.

ghost use Rattle.std.specs.Prelude.{◌≡◌, ℕ, ◌<◌, ◌⊎◌, Bool, ◌↔◌, List, length, Option, IsSome};
ghost use Rattle.cv_spec_element.specs.Walks.{IsCyclic};
ghost use Rattle.cv_spec_element.specs.Keywords.{Keyword};
ghost use Rattle.cv_spec_element.specs.Element.{Declarations, Outcome, Element};
ghost use Rattle.cv_spec_element.specs.Valuation.{Cause, IsInvalid, IsValuation, HasOneValuation, IsSettled, HasOneCause};
ghost use Rattle.cv_spec_element.specs.Numbering.{NumberEdge, IsNumbering};
ghost use Rattle.cv_spec_element.specs.Dependencies.{Refers, Edge, DependsOnItself, Reads};
ghost use Rattle.cv_spec_element.specs.Premises.{IsLawful};
ghost use Rattle.cv_spec_element.specs.Loose.{loose_element, IsLooselyLawful};

/// An element whose properties are all loose meets the premises of the laws. Its edges are its references, and a
/// property reads the values that it refers to, where it doesn't depend on itself.
pub fn loose_element_is_lawful<K, T>()
    ensures lawful { (is_same : K → K → Bool) (font_size : K) (declarations : Declarations K T) (is_white : T → Bool) (keyword : T → Option Keyword) (parent : Option (K → Option (List T))) → IsLooselyLawful is_same font_size declarations is_white keyword parent → IsLawful (loose_element is_same font_size declarations is_white keyword parent) }
    ensures edges { (is_same : K → K → Bool) (font_size : K) (declarations : Declarations K T) (is_white : T → Bool) (keyword : T → Option Keyword) (parent : Option (K → Option (List T))) (p q : K) → Edge (loose_element is_same font_size declarations is_white keyword parent) p q ↔ Refers (loose_element is_same font_size declarations is_white keyword parent) p q }
    ensures reads { (is_same : K → K → Bool) (font_size : K) (declarations : Declarations K T) (is_white : T → Bool) (keyword : T → Option Keyword) (parent : Option (K → Option (List T))) (p q : K) → Reads (loose_element is_same font_size declarations is_white keyword parent) p q ↔ ((¬ DependsOnItself (loose_element is_same font_size declarations is_white keyword parent) p) × Refers (loose_element is_same font_size declarations is_white keyword parent) p q) }
{}

/// The laws of the equations, for an element without typed values, units and font sizes, as one of loose properties is.
pub fn loose_elements_are_solved<K, T>()
    ensures exactly_one { (e : Element K T ⊥ ⊥ (Unit {0})) → IsLawful e → HasOneValuation e }
    ensures settled { (e : Element K T ⊥ ⊥ (Unit {0})) → IsLawful e → (values : K → Outcome T ⊥) → ((p : K) → IsSettled e values p) → IsValuation e values }
    ensures one_cause { (e : Element K T ⊥ ⊥ (Unit {0})) (values : K → Outcome T ⊥) (p : K) (one other : Cause K) → IsInvalid e values p one → IsInvalid e values p other → other ≡ one }
    ensures one_or_none { (e : Element K T ⊥ ⊥ (Unit {0})) (values : K → Outcome T ⊥) → IsValuation e values → (p : K) → HasOneCause e values p ⊎ ((cause : Cause K) → ¬ IsInvalid e values p cause) }
    ensures declared { (e : Element K T ⊥ ⊥ (Unit {0})) (values : K → Outcome T ⊥) (p : K) (cause : Cause K) → IsInvalid e values p cause → IsSome (e.declarations.pieces p) }
    ensures cycles { (e : Element K T ⊥ ⊥ (Unit {0})) (name : ℕ → K) (rows : List (List ℕ)) → IsLawful e → IsNumbering e name rows → (i : ℕ) → i < length rows → IsCyclic (NumberEdge rows) i ↔ DependsOnItself e (name i) }
{}
