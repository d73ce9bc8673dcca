ghost use Rattle.std.specs.Prelude.{◌≡◌, neg_ℤ};
ghost use Rattle.std.specs.List.{list_any};
ghost use Rattle.conda_refute.specs.Literals.{has};
ghost use Rattle.conda_refute.specs.Refutation.{has_opposites};
ghost use Rattle.conda_sat.specs.Answers.{denies};

/// Whether a literal is one of these.
pub fn has_literal(literals: &[i32], literal: i32) -> bool
    ensures { result ≡ has literals.now literal }
{
    for other in literals {
        if *other == literal {
            return true;
        }
    }
    false
}

/// Whether the opposite of a literal is one of these.
fn has_opposite(literals: &[i32], literal: i32) -> bool
    ensures { result ≡ has literals.now (neg_ℤ literal) }
{
    let opposite = -i64::from(literal);
    for other in literals {
        if i64::from(*other) == opposite {
            return true;
        }
    }
    false
}

/// Whether two of these literals are opposites.
pub fn holds_opposites(literals: &[i32]) -> bool
    ensures { result ≡ has_opposites literals.now }
{
    for literal in literals {
        if has_opposite(literals, *literal) {
            return true;
        }
    }
    false
}

/// Whether each literal of the clause is the opposite of an assumed one.
pub fn denies(assumed: &[i32], clause: &[i32]) -> bool
    ensures { result ≡ denies assumed.now clause.now }
{
    for literal in clause {
        if !has_opposite(assumed, *literal) {
            return false;
        }
    }
    true
}
