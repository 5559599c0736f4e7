//! Laws of the pair term and of the table. Each function is empty: its clause is the law.
ghost use Rattle.std.specs.Prelude.{◌≡◌, ◌^◌, ◌≤◌, ℕ, ℤ, List, IfOk, IfSome};
ghost use Rattle.box_geo.specs.Sides.{IsOpposite};
ghost use Rattle.box_geo.specs.Terms.{dot};
ghost use Rattle.pair_lj.specs.PairTerm.{pair_term, weighted_term, force_along, AreOpposite, HasModerateForce};
ghost use Rattle.pair_lj.specs.Pairs.{numbers_at};
ghost use Rattle.pair_lj.specs.declared.pair_settings.PairCoefficients.{PairCoefficients};

/// The pair term is odd: at the opposite displacement it is of the same kind, with the negative
/// force, component by component, the same energy and the same virial.
pub fn pair_term_is_odd()
    ensures { (eps sigma cut weight : ℕ) (base : ℤ) (d e : List ℤ) → IsOpposite d e
        → AreOpposite (pair_term eps sigma cut base weight d) (pair_term eps sigma cut base weight e) }
{}

/// The whole weight, 2^24 units, changes nothing.
pub fn a_whole_weight_changes_nothing()
    ensures { (c e : ℤ) (d : List ℤ) → weighted_term c e (2 ^ 24) d
        ≡ record { f = force_along c d; energy = e; virial = dot d (force_along c d) } }
{}

/// No component of the force of a term is above [`box_geo::limits::MAX_TERM_FORCE`], whatever the
/// weight.
pub fn pair_terms_are_bounded()
    ensures { (eps sigma cut weight : ℕ) (base : ℤ) (d : List ℤ) → weight ≤ 2 ^ 24
        → IfOk (pair_term eps sigma cut base weight d) (λ t. IfSome t HasModerateForce) }
{}

/// A pair of types has no order.
pub fn pairs_have_no_order()
    ensures { (pairs : List PairCoefficients) (i j : ℕ) → numbers_at pairs i j ≡ numbers_at pairs j i }
{}
