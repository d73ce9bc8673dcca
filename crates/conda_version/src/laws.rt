ghost use Rattle.std.specs.Prelude.{◌≡◌, ◌++◌, List, None, ℕ, false, true};
ghost use Rattle.std.specs.Cmp.{IsTotalOrder};
ghost use Rattle.std.specs.Ordering.{is_le, ordering_reverse};
ghost use Rattle.std.specs.declared.cmp.Ordering.TheVariants.{Equal};
ghost use Rattle.std.specs.List.{list_all};
ghost use Rattle.conda_base.specs.Signs.{dot, space};
ghost use Rattle.conda_base.specs.Texts.{begins_with, ends_with, is_byte};
ghost use Rattle.conda_version.specs.Grammar.{is_plain, meaning, offence};
ghost use Rattle.conda_version.specs.Order.{meaning_cmp, meaning_starts, version_cmp, version_starts};
ghost use Rattle.conda_version.specs.Text.{plain, trimmed};
ghost use Rattle.conda_version.specs.Versions.{IsVersionText, Meaning};

use conda_base::cut_laws;

/// The order of versions is a total preorder: versions that it finds equal may have other texts. It is the order of
/// what the texts mean by the grammar: of epoch and main part, and of the local parts where these are equal.
/// Which version starts with which goes by what they mean too, so that two equal ones start with the same versions.
pub fn order_laws()
    ensures means { (x y : List ℕ) (v w : Meaning) → IsVersionText x v → IsVersionText y w → version_cmp x y ≡ meaning_cmp v w }
    ensures starts { (x y : List ℕ) (v w : Meaning) → IsVersionText x v → IsVersionText y w → version_starts x y ≡ meaning_starts v w }
    ensures reflexive { (v : List ℕ) → version_cmp v v ≡ Equal }
    ensures transitive { (u v w : List ℕ) → is_le (version_cmp u v) ≡ true → is_le (version_cmp v w) ≡ true → is_le (version_cmp u w) ≡ true }
    ensures total { (v w : List ℕ) → version_cmp v w ≡ ordering_reverse (version_cmp w v) }
    ensures equals { (u v w : List ℕ) → version_cmp u v ≡ Equal → version_cmp u w ≡ version_cmp v w }
    ensures alike { (u v w : List ℕ) → version_cmp u v ≡ Equal → version_starts u w ≡ version_starts v w }
{
    cut_laws();
}

/// A text is what is trimmed with spaces around it, and nothing is trimmed of a text that neither begins nor ends
/// with one.
pub fn trimmed_law()
    ensures whole { (text : List ℕ) → (front : List ℕ) × (back : List ℕ) × (text ≡ front ++ (trimmed text ++ back)) × (list_all (is_byte space) (front ++ back) ≡ true) }
    ensures bare { (text : List ℕ) → begins_with space text ≡ false → ends_with space text ≡ false → trimmed text ≡ text }
    ensures twice { (text : List ℕ) → trimmed (trimmed text) ≡ trimmed text }
{}

/// The grammar of versions and what is read: every text of the grammar is read, with the value that the grammar gives,
/// and nothing else is. No version holds a character but digits, letters, `.`, `_`, `-`, `+` and `!`, nor ends with a dot.
pub fn grammar_laws()
    ensures read { (text : List ℕ) → offence text ≡ None → IsVersionText text (meaning text) }
    ensures only { (text : List ℕ) (version : Meaning) → IsVersionText text version → (offence text ≡ None) × (meaning text ≡ version) }
    ensures chars { (text : List ℕ) → offence text ≡ None → list_all is_plain (plain text) ≡ true }
    ensures end { (text : List ℕ) → offence text ≡ None → ends_with dot text ≡ false }
{
    cut_laws();
}
