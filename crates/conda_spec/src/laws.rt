ghost use Rattle.std.specs.Prelude.{◌≡◌, List, Ok, ℕ};
ghost use Rattle.conda_version.specs.Text.{trimmed};
ghost use Rattle.conda_spec.specs.Grammar.{IsSpecText};
ghost use Rattle.conda_spec.specs.Parts.{IsSpec, Parts};
ghost use Rattle.conda_spec.specs.Reading.{spec_read};
ghost use Rattle.conda_spec.specs.Text.{spec_text};

use conda_base::{cut_laws, number_laws};
use conda_clause as clause;

/// The texts that are read are those of the grammar, and no others, each with the parts that the grammar gives it. So each text of
/// the grammar has one list of parts.
pub fn grammar_laws()
    ensures only { (text : List ℕ) (parts : Parts) → spec_read text ≡ Ok parts → IsSpecText text parts }
    ensures all { (text : List ℕ) (parts : Parts) → IsSpecText text parts → spec_read text ≡ Ok parts }
{
    cut_laws();
    number_laws();
    clause::clause_laws();
    clause::grammar_laws();
    clause::beside_laws();
}

/// The normal form of a specification is read as that specification.
pub fn normal_form_law()
    ensures { (parts : Parts) → IsSpec parts → spec_read (trimmed (spec_text parts)) ≡ Ok parts }
{
    cut_laws();
    number_laws();
    clause::clause_laws();
    clause::grammar_laws();
    clause::beside_laws();
}
