use conda_base::Rows;
use conda_refute::Log;

/// What was found of clauses and assumed literals.
#[derive(Debug, Drop)]
pub enum Verdict {
    /// The side of each variable, the first variable's first: they make every clause and every assumed literal true.
    Model(Rows<bool>),
    /// No sides of the variables do.
    Denied,
}

/// What was found of clauses.
#[derive(Debug, Drop)]
pub enum Answer {
    /// The side of each variable, the first variable's first: they make every clause true.
    Model(Rows<bool>),
    /// A refutation whose inputs are among the clauses.
    Refuted(Log),
}
