ghost use Rattle.std.specs.Prelude.{◌≡◌, ◌↔◌, ◌<◌, ◌+◌, ℕ, List, [], ◌∷◌, ◌++◌};
ghost use Rattle.std.specs.Prelude.{IfSome, MatchOption, length};
ghost use Rattle.std.specs.List.{after_first, after_last, before_first, before_last, slice_split};
ghost use Rattle.conda_base.specs.Texts as texts;
ghost use Rattle.conda_base.specs.Texts.{is_byte, IsFreeOf};

/// What stands before the first such ASCII character, and behind it; nothing where there is none.
pub fn cut_first(text: &str, mark: u8) -> Option<(&str, &str)>
    requires { mark < 128 }
    ensures cut { MatchOption result (texts.cut_first mark text.now ≡ None)
        (λ x. texts.cut_first mark text.now ≡ Some (x.0.now, x.1.now)) }
    ensures len { IfSome result (λ x. length x.0.now + length x.1.now + 1 ≡ length text.now) }
{
    text.split_once(char::from(mark))
}

/// What stands before the last such ASCII character, and behind it; nothing where there is none.
pub fn cut_last(text: &str, mark: u8) -> Option<(&str, &str)>
    requires { mark < 128 }
    ensures cut { MatchOption result (texts.cut_last mark text.now ≡ None)
        (λ x. texts.cut_last mark text.now ≡ Some (x.0.now, x.1.now)) }
    ensures len { IfSome result (λ x. length x.0.now + length x.1.now + 1 ≡ length text.now) }
{
    text.rsplit_once(char::from(mark))
}

/// What the two cuts mean, also in std's words for halves and parts.
///
/// The text is the two halves with the mark between them. The mark stands nowhere in the first
/// half of a cut at the first one, nor in the second half of a cut at the last one. There is no
/// cut exactly where the mark stands nowhere.
pub fn cut_laws()
    ensures first { (mark : ℕ) (text before behind : List ℕ) →
        (texts.cut_first mark text ≡ Some (before, behind))
        ↔ ((text ≡ before ++ mark ∷ behind) × IsFreeOf mark before) }
    ensures last { (mark : ℕ) (text before behind : List ℕ) →
        (texts.cut_last mark text ≡ Some (before, behind))
        ↔ ((text ≡ before ++ mark ∷ behind) × IsFreeOf mark behind) }
    ensures no_first { (mark : ℕ) (text : List ℕ) →
        (texts.cut_first mark text ≡ None) ↔ IsFreeOf mark text }
    ensures no_last { (mark : ℕ) (text : List ℕ) →
        (texts.cut_last mark text ≡ None) ↔ IsFreeOf mark text }
    ensures first_words { (mark : ℕ) (text before behind : List ℕ) →
        texts.cut_first mark text ≡ Some (before, behind) →
        (before_first (is_byte mark) text ≡ before)
        × (after_first (is_byte mark) text ≡ behind)
        × (slice_split (is_byte mark) text ≡ before ∷ slice_split (is_byte mark) behind) }
    ensures last_words { (mark : ℕ) (text before behind : List ℕ) →
        texts.cut_last mark text ≡ Some (before, behind) →
        (before_last (is_byte mark) text ≡ before) × (after_last (is_byte mark) text ≡ behind) }
    ensures free_words { (mark : ℕ) (text : List ℕ) → IsFreeOf mark text →
        (before_first (is_byte mark) text ≡ text)
        × (after_first (is_byte mark) text ≡ [])
        × (before_last (is_byte mark) text ≡ [])
        × (after_last (is_byte mark) text ≡ text)
        × (slice_split (is_byte mark) text ≡ text ∷ []) }
{}
