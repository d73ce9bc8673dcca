ghost use Rattle.conda_plan.specs.Law.{LeadsToNext, StartsPlan};

use conda_linking::linking_laws;

/// What the changes of a plan make of an environment's tree. In each tree that shows a state whose
/// revisions leave what is linked now, they may start: a node stands at a path exactly where its
/// change says so, and no path of theirs in the trash is in use. And the tree that they make of it,
/// with the history of the state to which the plan's revision is added, shows that state: exactly
/// the goods that its revisions give, its meta files, and the others and altered paths that no
/// change names.
pub fn plan_laws()
    ensures starts { StartsPlan }
    ensures leads { LeadsToNext }
{
    linking_laws();
}
