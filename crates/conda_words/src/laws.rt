ghost use Rattle.std.specs.Prelude.{◌≡◌, ◌↔◌, ℕ, [], ◌∷◌, List, Err, Ok, true};
ghost use Rattle.conda_words.specs.Grammar.{HasFault, Means};
ghost use Rattle.conda_words.specs.Lines.{HasLineFault, MeansLines};
ghost use Rattle.conda_words.specs.Reading.{words_read};
ghost use Rattle.conda_words.specs.Scripts.{script_read};
ghost use Rattle.conda_words.specs.Table.{has_one_prefix};
ghost use Rattle.conda_words.specs.declared.command.Command.{Command};
ghost use Rattle.conda_words.specs.declared.command.Line.{Line};
ghost use Rattle.conda_words.specs.declared.error.Why.{Why};

use conda_base::cut_laws;

/// What is read from words: the command that they mean, where they are in the grammar of command lines; else where
/// the first fault stands, and what it is. A command that runs in one environment has one prefix.
pub fn words_laws()
    ensures meaning { (words : List (List ℕ)) (c : Command) →
        (words_read words ≡ Ok c) ↔ Means words c }
    ensures fault { (words : List (List ℕ)) (at : ℕ) (why : Why) →
        (words_read words ≡ Err (at, why)) ↔ HasFault words at why }
    ensures prefix { (words : List (List ℕ)) (c : Command) → words_read words ≡ Ok c →
        has_one_prefix c.verb ≡ true → (prefix : List ℕ) × (c.prefixes ≡ prefix ∷ []) }
{
    cut_laws();
}

/// What is read from a script: the lines that its text means, where it is in the grammar of scripts; else its first line
/// that is bad behind those before it, and why.
pub fn script_laws()
    ensures meaning { (text : List ℕ) (lines : List Line) →
        (script_read text ≡ Ok lines) ↔ MeansLines text lines }
    ensures fault { (text : List ℕ) (n : ℕ) (why : Why) →
        (script_read text ≡ Err (n, why)) ↔ HasLineFault text n why }
{
    cut_laws();
}
