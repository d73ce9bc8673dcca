ghost use Rattle.std.specs.Prelude.{◌≡◌, ◌≢◌, ◌↔◌, ◌++◌, ℕ, List, MatchOption, None, Some};
ghost use Rattle.conda_path.specs.Files as files;
ghost use Rattle.conda_path.specs.Files.{IsFileOf, before_end};

/// What stands before an ending, where the text has it.
fn cut_end<'a>(text: &'a str, ending: &str) -> Option<&'a str>
    ensures { MatchOption result (before_end ending.now text.now ≡ None)
        (λ front. before_end ending.now text.now ≡ Some front.now) }
{
    text.strip_suffix(ending)
}

/// What stands before the ending of a package file, `.tar.bz2` or `.conda`; None where a text has
/// neither. It takes no memory.
pub fn cut_ending(file: &str) -> Option<&str>
    ensures { MatchOption result (files.cut_ending file.now ≡ None)
        (λ stem. files.cut_ending file.now ≡ Some stem.now) }
{
    match cut_end(file, ".tar.bz2") {
        Some(stem) => Some(stem),
        None => cut_end(file, ".conda"),
    }
}

/// What is cut off is the ending of a package file, and of a package file's name it is cut off.
pub fn ending_laws()
    ensures { (file stem : List ℕ) → (files.cut_ending file ≡ Some stem) ↔ IsFileOf file stem }
{}
