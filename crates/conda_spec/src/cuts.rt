ghost use Rattle.std.specs.Prelude.{◌≡◌, ◌<◌, ◌+◌, ◌==◌, IfSome, IsTrue, length, drop, true};
ghost use Rattle.std.specs.Option.{option_map};
ghost use Rattle.conda_base.specs.Texts.{begins_with};
ghost use Rattle.conda_spec.specs.Cuts.{cut_colons, without_last};

/// What stands before the first `::`, and behind it.
pub fn cut_colons(text: &str) -> Option<(&str, &str)>
    ensures cut { option_map (λ x. (x.0.now, x.1.now)) result ≡ cut_colons text.now }
    ensures len { IfSome result (λ x. length x.0.now + length x.1.now + 2 ≡ length text.now) }
{
    text.split_once("::")
}

/// A text that ends with this ASCII character, without it.
pub fn without_last(text: &str, mark: char) -> Option<&str>
    requires { mark < 128 }
    ensures text { option_map (λ x. x.now) result ≡ without_last mark text.now }
    ensures len { IfSome result (λ x. length x.now + 1 ≡ length text.now) }
{
    text.strip_suffix(mark)
}

pub fn begins_with(text: &str, mark: u8) -> bool
    ensures { result ≡ begins_with mark text.now }
{
    match text.as_bytes() {
        [] => false,
        [b, ..] => *b == mark,
    }
}

/// A text that begins with this ASCII character, without it.
pub fn behind(text: &str, mark: u8) -> &str
    requires ascii { mark < 128 }
    requires begins { begins_with mark text.now ≡ true }
    ensures { result.now ≡ drop 1 text.now }
{
    &text[1..]
}
