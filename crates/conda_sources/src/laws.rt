ghost use Rattle.std.specs.Prelude.{◌≡◌, List, Ok, ℕ};
ghost use Rattle.std.specs.List.{All};
ghost use Rattle.conda_words.specs.Reading.{words_read};
ghost use Rattle.conda_words.specs.declared.command.Command.{Command};
ghost use Rattle.conda_sources.specs.Virtuals.{IsGiven};

use conda_words::words_laws;

/// The virtual packages of a command that is read are ones that its options give.
pub fn virtual_laws()
    ensures { (words : List (List ℕ)) (command : Command) → words_read words ≡ Ok command →
        All IsGiven command.virtuals }
{
    words_laws();
}
