ghost use Rattle.std.specs.Prelude.{◌≡◌, [], IfOk, string_bytes};

use crate::copied::Copied;
use std::alloc::{AllocError, Global};
use std::cmp::Ordering;
use std::hash::{Hash, Hasher};
use std::marker::Model;

/// A text. Contracts see it as the list of its bytes in UTF-8, and compare and hash it by these.
#[derive(Debug, Drop)]
pub struct Text {
    text: String,
}

impl Model for Text {
    ghost use Rattle.std.specs.Prelude.{List, ℕ, string_bytes};

    ghost Value = { List ℕ };

    ghost view = { λ t. string_bytes t.text };
}

impl Text {
    /// The empty text, which takes no memory.
    pub fn new(alloc: Global) -> Text
        ensures { result ≡ [] }
    {
        Text {
            text: String::new(alloc),
        }
    }

    /// The text that `text` holds. It takes no memory.
    pub fn from_string(text: String) -> Text
        ensures { result ≡ string_bytes text }
    {
        Text { text }
    }

    /// A text of its own with the bytes of `text`.
    pub fn from_str(alloc: Global, text: &str) -> Result<Text, AllocError>
        ensures { IfOk result (λ t. t ≡ text.now) }
    {
        let text = String::from_str(alloc, text)?;
        Ok(Text { text })
    }

    pub fn as_str(&self) -> &str
        ensures { result.now ≡ self.now }
    {
        self.text.as_str()
    }

    /// Gives the `String` back. It takes no memory.
    pub fn into_string(self) -> String
        ensures { string_bytes result ≡ self }
    {
        let Text { text } = self;
        text
    }
}

impl Clone for Text {
    ghost use Rattle.std.specs.Prelude.{◌≡◌};

    ghost is_clone = { λ text made. made ≡ text };

    fn clone(&self) -> Result<Text, AllocError> {
        let text = self.text.clone()?;
        Ok(Text { text })
    }
}

impl Copied for Text {
    fn copy(&self) -> Result<Text, AllocError> {
        self.clone()
    }
}

impl PartialEq for Text {
    ghost use Rattle.std.specs.Prelude.{nat_eq};
    ghost use Rattle.std.specs.Cmp.{partial_equiv_from_equiv};
    ghost use Rattle.std.specs.Cmp.Lexicographic.{nat_list_eq_equiv, pointwise};

    ghost eq = { pointwise nat_eq };

    ghost laws = { partial_equiv_from_equiv nat_list_eq_equiv };

    fn eq(&self, other: &Text) -> bool {
        self.text.as_bytes() == other.text.as_bytes()
    }
}

impl Eq for Text {
    ghost use Rattle.std.specs.Cmp.Lexicographic.{nat_list_eq_equiv};

    ghost laws = { nat_list_eq_equiv };
}

impl Hash for Text {
    ghost use Rattle.std.specs.Hash as fed;
    ghost use Rattle.std.specs.Cmp.Rules.{hashing};
    ghost use Rattle.std.proofs.Common.{rules};

    ghost hash_input = { fed.str };

    ghost respects_eq = { Prim.search (hashing, rules) };

    fn hash<H: Hasher>(&self, state: &mut H) {
        self.text.as_str().hash(state)
    }
}

impl PartialOrd for Text {
    ghost use Rattle.std.specs.Prelude.{Some};
    ghost use Rattle.std.specs.Ordering.{nat_cmp};
    ghost use Rattle.std.specs.Cmp.Lexicographic.{slice_cmp, texts_po};

    ghost partial_cmp = { λ a b. Some (slice_cmp nat_cmp a b) };

    ghost laws = { texts_po };

    fn partial_cmp(&self, other: &Text) -> Option<Ordering> {
        Some(self.cmp(other))
    }
}

impl Ord for Text {
    ghost use Rattle.std.specs.Prelude.{refl};
    ghost use Rattle.std.specs.Ordering.{nat_cmp};
    ghost use Rattle.std.specs.Cmp.Lexicographic.{nat_list_cmp_total, slice_cmp, texts_ties};

    ghost cmp = { slice_cmp nat_cmp };

    ghost total = { nat_list_cmp_total };

    ghost matches_partial_cmp = { λ a b. refl };

    ghost matches_eq = { texts_ties };

    fn cmp(&self, other: &Text) -> Ordering {
        self.text.as_bytes().cmp(other.text.as_bytes())
    }
}
