ghost use Rattle.std.specs.Prelude.{◌≡◌, map};
ghost use Rattle.std.specs.Char.{to_ascii_lowercase};
ghost use Rattle.conda_clause.specs.Glob.{glob_matches, letter};

// How the letters of a text are compared.
#[derive(Clone, Copy, Debug)]
enum Letters {
    AsTheyAre,
    Lowered,
}

/// Whether a text is of a pattern, in which `*` stands for any characters, also none, and every
/// other one for itself. It takes no memory, and time at most as the product of both lengths.
pub fn glob(pattern: &str, text: &str) -> bool
    ensures { result ≡ glob_matches pattern.now text.now }
{
    is_of(pattern.as_bytes(), text.as_bytes(), Letters::AsTheyAre)
}

/// The same of the text with its ASCII letters lowered. It takes no memory.
pub fn glob_lowered(pattern: &str, text: &str) -> bool
    ensures { result ≡ glob_matches pattern.now (map to_ascii_lowercase text.now) }
{
    is_of(pattern.as_bytes(), text.as_bytes(), Letters::Lowered)
}

fn letter(letters: Letters, b: u8) -> u8
    ensures { result ≡ letter letters b }
{
    match letters {
        Letters::AsTheyAre => b,
        Letters::Lowered => b.to_ascii_lowercase(),
    }
}

// Takes as few characters as it can for each star. Where what is behind the last star does not fit,
// that star takes one more: no earlier star has to, since what a later one takes can make up for
// it.
fn is_of(pattern: &[u8], text: &[u8], letters: Letters) -> bool
    ensures { result ≡ glob_matches pattern.now (map (letter letters) text.now) }
{
    let mut pattern_left = pattern;
    let mut left = text;
    // What stood behind the last star and what was left of the text there. Before the first star no
    // text is left to it.
    let mut behind_star = pattern;
    let mut star_left: &[u8] = &[];
    loop {
        match pattern_left.split_first() {
            Some((b'*', rest)) => {
                pattern_left = rest;
                behind_star = rest;
                star_left = left;
                continue;
            }
            Some((c, rest)) => {
                if let Some((b, text_rest)) = left.split_first() {
                    if letter(letters, *b) == *c {
                        pattern_left = rest;
                        left = text_rest;
                        continue;
                    }
                }
            }
            None => {
                if left.is_empty() {
                    return true;
                }
            }
        }
        let Some((_, rest)) = star_left.split_first() else {
            return false;
        };
        star_left = rest;
        left = rest;
        pattern_left = behind_star;
    }
}
