use conda_path::{Good, RelPath};
use std::collections::BTreeMap;

/// A path that goes or comes: whether a node stands there, and what comes, if something does.
#[derive(Clone, Copy)]
pub struct Move<'a> {
    pub path: &'a RelPath,
    pub old: bool,
    pub new: Option<&'a Good>,
}

/// What goes and comes, by path.
pub type Moves<'a> = BTreeMap<&'a str, Move<'a>>;
