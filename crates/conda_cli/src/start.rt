ghost use Rattle.std.specs.Prelude.{◌≡◌, MatchOption, None, Some, map, string_bytes};
ghost use Rattle.conda_cli.specs.Start.{asked, rooted};

/// What `--version` prints.
pub const VERSION: &str = "conda 0.1.0\n";

/// What `--help` prints.
pub const HELP: &str = "\
usage: conda [--root DIR] COMMAND ..

  list -p PREFIX                lists the packages of the environment at PREFIX
  list --revisions -p PREFIX    lists its revisions
  search [OPTIONS] SPEC         lists the packages that SPEC names
  solve [OPTIONS] SPEC ..       chooses the packages that an environment would have
  refute                        checks the refutation that the input has

--root DIR puts the folder DIR in front of every prefix.

The options of search and solve:

  -c NAME                       takes the packages of the channel NAME; of several channels
                                the first that has a package of a name hides the others
  --channels DIR                the folder of the channels, or else the folder channels
  --virtual NAME=VERSION        takes the machine to have the virtual package NAME
  --jobs N, --pkgs DIR          change nothing here
";

/// The text that `--help` or `--version` as the first word asks for. It takes no memory.
pub fn asked_text(words: &[String]) -> Option<&'static str>
    ensures { MatchOption result (asked HELP.now VERSION.now (map string_bytes words.now) ≡ None)
        (λ text. asked HELP.now VERSION.now (map string_bytes words.now) ≡ Some text.now) }
{
    match words {
        [first, ..] if first.as_str() == "--help" => Some(HELP),
        [first, ..] if first.as_str() == "--version" => Some(VERSION),
        _ => None,
    }
}

/// The folder that `--root DIR` in front names, else the empty text; and the words that are left. It
/// takes no memory.
pub fn split_root(words: &[String]) -> (&str, &[String])
    ensures root { result.0.now ≡ (rooted (map string_bytes words.now)).0 }
    ensures rest { map string_bytes result.1.now ≡ (rooted (map string_bytes words.now)).1 }
{
    match words {
        [option, folder, rest @ ..] if option.as_str() == "--root" => (folder.as_str(), rest),
        _ => ("", words),
    }
}
