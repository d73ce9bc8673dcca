ghost use Rattle.conda_linking.specs.Laws.{FoldsToTarget, HasOneRevision};

/// What a revision leads to. Where revisions leave what is linked now, and the target, by dist, has
/// each of its packages that isn't to link as it is linked now, those revisions and after them the
/// one to the target leave the target. Two revisions from what is linked now to a target are the
/// same.
pub fn linking_laws()
    ensures folds { FoldsToTarget }
    ensures only { HasOneRevision }
{}
