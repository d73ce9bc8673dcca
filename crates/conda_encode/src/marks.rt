ghost use Rattle.std.specs.Prelude.{◌≡◌, ◌<◌, ◌≤◌, ◌-◌, [], ◌∷◌, false, length};
ghost use Rattle.conda_encode.specs.Marks.{AreNumbers, Covers, Grows, OnlyThese};
ghost use Rattle.conda_encode.specs.Sides.{side_of, variable_of};

/// Marks a variable that the model makes true. Whether it wasn't marked before.
fn mark_one(literal: &i32, model: &[bool], marks: &mut [bool]) -> bool
    requires low { 1 ≤ variable_of literal.now }
    requires high { variable_of literal.now ≤ length marks.old }
    requires long { length marks.old ≤ length model.now }
    ensures grows { Grows marks.old marks.new }
    ensures only { OnlyThese model.now (literal.now ∷ []) marks.old marks.new }
    ensures covers { Covers model.now (literal.now ∷ []) marks.new }
    ensures same { result ≡ false → marks.new ≡ marks.old }
{
    let at = literal.unsigned_abs() as usize - 1;
    if !model[at] {
        return false;
    }
    if marks[at] {
        return false;
    }
    marks[at] = true;
    true
}

/// Marks those of these variables that the model makes true. Whether one wasn't marked before.
pub fn mark_all(literals: &[i32], model: &[bool], marks: &mut [bool]) -> bool
    requires numbers { AreNumbers (length marks.old) literals.now }
    requires long { length marks.old ≤ length model.now }
    ensures grows { Grows marks.old marks.new }
    ensures only { OnlyThese model.now literals.now marks.old marks.new }
    ensures covers { Covers model.now literals.now marks.new }
    ensures same { result ≡ false → marks.new ≡ marks.old }
{
    let mut changed = false;
    for literal in literals {
        if mark_one(literal, model, marks) {
            changed = true;
        }
    }
    changed
}
