ghost use Rattle.std.specs.Prelude.{◌≡◌, ◌<◌, ◌∷◌, [], IfSome, IsUtf8, MatchOption, None};
ghost use Rattle.std.specs.Prelude.{Some, length};
ghost use Rattle.conda_history.specs.Lines as lines;
ghost use Rattle.conda_history.specs.Lines.{without_front};
ghost use Rattle.conda_history.specs.Says.{lines_of};

use conda_base::cut_last;
use conda_path::cut_ending;
use memchr::memchr;

/// The first line and what stands behind its newline; None where no newline is left.
pub fn next_line(bytes: &[u8]) -> Option<(&[u8], &[u8])>
    ensures line { MatchOption result (lines_of bytes.now ≡ bytes.now ∷ [])
        (λ cut. lines_of bytes.now ≡ cut.0.now ∷ lines_of cut.1.now) }
    ensures shorter { IfSome result (λ cut. length cut.1.now < length bytes.now) }
{
    match memchr(b'\n', bytes) {
        Some(at) => {
            let (line, behind) = bytes.split_at(at);
            let (_, after) = behind.split_at(1);
            Some((line, after))
        }
        None => None,
    }
}

/// The text that the bytes are, if they are UTF-8.
pub fn text_of(bytes: &[u8]) -> Option<&str>
    ensures { MatchOption result (¬ IsUtf8 bytes.now)
        (λ text. (text.now ≡ bytes.now) × IsUtf8 bytes.now) }
{
    match str::from_utf8(bytes) {
        Ok(text) => Some(text),
        Err(_) => None,
    }
}

/// What stands behind a character at the front.
pub fn behind(text: &str, mark: char) -> Option<&str>
    requires { mark < 128 }
    ensures { MatchOption result (lines.behind_one mark text.now ≡ None)
        (λ rest. lines.behind_one mark text.now ≡ Some rest.now) }
{
    text.strip_prefix(mark)
}

/// What stands before a character at the end.
fn before(text: &str, mark: char) -> Option<&str>
    requires { mark < 128 }
    ensures { MatchOption result (lines.before_one mark text.now ≡ None)
        (λ front. lines.before_one mark text.now ≡ Some front.now) }
{
    text.strip_suffix(mark)
}

/// What stands behind a space or the other character at the front.
fn behind_end(text: &str, also: char) -> Option<&str>
    requires { also < 128 }
    ensures { MatchOption result (without_front also text.now ≡ text.now)
        (λ rest. (without_front also text.now ≡ without_front also rest.now)
        × (length rest.now < length text.now)) }
{
    match behind(text, ' ') {
        Some(rest) => Some(rest),
        None => behind(text, also),
    }
}

/// What stands before a space or the other character at the end.
fn before_end(text: &str, also: char) -> Option<&str>
    requires { also < 128 }
    ensures { MatchOption result (lines.without_back also text.now ≡ text.now)
        (λ front. (lines.without_back also text.now ≡ lines.without_back also front.now)
        × (length front.now < length text.now)) }
{
    match before(text, ' ') {
        Some(front) => Some(front),
        None => before(text, also),
    }
}

fn from_first(text: &str, also: char) -> &str
    requires { also < 128 }
    ensures { result.now ≡ without_front also text.now }
{
    let mut left = text;
    while let Some(rest) = behind_end(left, also) {
        left = rest;
    }
    left
}

fn to_last(text: &str, also: char) -> &str
    requires { also < 128 }
    ensures { result.now ≡ lines.without_back also text.now }
{
    let mut left = text;
    while let Some(rest) = before_end(left, also) {
        left = rest;
    }
    left
}

/// The text without the spaces, and the other characters, at its ends. It takes no memory.
pub fn without_ends(text: &str, also: char) -> &str
    requires { also < 128 }
    ensures { result.now ≡ lines.without_ends also text.now }
{
    to_last(from_first(text, also), also)
}

/// What stands behind the first mark of a header line.
fn behind_mark(text: &str) -> Option<&str>
    ensures { MatchOption result (lines.behind_mark text.now ≡ None)
        (λ rest. lines.behind_mark text.now ≡ Some rest.now) }
{
    let rest = behind(text, '=')?;
    let rest = behind(rest, '=')?;
    behind(rest, '>')
}

/// What stands before the last mark of a header line.
fn before_mark(text: &str) -> Option<&str>
    ensures { MatchOption result (lines.before_mark text.now ≡ None)
        (λ front. lines.before_mark text.now ≡ Some front.now) }
{
    let front = before(text, '=')?;
    let front = before(front, '=')?;
    before(front, '<')
}

/// What stands between the two marks of a header line.
pub fn middle_of(text: &str) -> Option<&str>
    ensures { MatchOption result (lines.middle_of text.now ≡ None)
        (λ middle. lines.middle_of text.now ≡ Some middle.now) }
{
    match behind_mark(text) {
        Some(rest) => before_mark(rest),
        None => None,
    }
}

/// Whether a line is empty or a comment.
pub fn says_nothing(text: &[u8]) -> bool
    ensures { result ≡ lines.says_nothing text.now }
{
    match text {
        [] => true,
        [b, ..] => *b == b'#',
    }
}

/// What stands behind the last `::`. A text with another colon behind it is no dist, and neither is
/// what is given of it.
fn file_of(text: &str) -> &str
    ensures { result.now ≡ lines.file_of text.now }
{
    match cut_last(text, b':') {
        Some((front, file)) => match before(front, ':') {
            Some(_) => file,
            None => text,
        },
        None => text,
    }
}

/// The part of a text behind its sign that is to be the dist. It takes no memory.
pub fn dist_part(text: &str) -> &str
    ensures { result.now ≡ lines.dist_part text.now }
{
    let file = file_of(text);
    match cut_ending(file) {
        Some(stem) => stem,
        None => file,
    }
}
