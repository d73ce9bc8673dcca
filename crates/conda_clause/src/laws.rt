ghost use Rattle.std.specs.Prelude.{◌≡◌, ◌↔◌, ◌<◌, ◌≤◌, ◌==◌, ◌&&◌, ◌||◌, ◌∷◌, ◌++◌, [], List, None, Some, false, drop, length, not, take, true, ℕ};
ghost use Rattle.std.specs.List.{list_all};
ghost use Rattle.conda_base.specs.Signs.{bar, close_paren, comma, equals, greater, less, open_paren, space};
ghost use Rattle.conda_base.specs.Texts.{ends_with};
ghost use Rattle.std.specs.declared.cmp.Ordering.TheVariants.{Equal};
ghost use Rattle.conda_version.specs.Order.{version_cmp};
ghost use Rattle.conda_clause.specs.declared.test.Test.{Test};
ghost use Rattle.conda_clause.specs.Beside.{IsBesideBuild};
ghost use Rattle.conda_clause.specs.Clause.{beside_build, clause_fault, is_clause_char};
ghost use Rattle.conda_clause.specs.Faults.{place_of};
ghost use Rattle.conda_clause.specs.Kept.{kept, places};
ghost use Rattle.conda_clause.specs.Spaces.{IsKept};
ghost use Rattle.conda_clause.specs.Pieces as pieces;
ghost use Rattle.conda_clause.specs.Tests.{IsFaultless, IsTest, is_version_char, test_holds, test_of};
ghost use Rattle.conda_clause.specs.Tree.{IsClause, IsPart, Tree, Writes, tree_holds};
ghost use Rattle.conda_clause.specs.Tree.Rank.{or};
ghost use Rattle.conda_clause.specs.Truth.{clause_holds};

use conda_version as version;

/// What holds of the text of every clause: it isn't empty, and each of its characters is one that a
/// clause may hold. It begins with no joint, and ends with none of `,`, `|`, `<`, `>` and `=`.
pub fn clause_laws()
    ensures some { (text : List ℕ) → clause_fault text ≡ None → 0 < length text }
    ensures chars { (text : List ℕ) → clause_fault text ≡ None →
        list_all is_clause_char text ≡ true }
    ensures front { (text : List ℕ) → clause_fault text ≡ None → (bs : List ℕ) →
        (text ≡ comma ∷ bs → ⊥) × (text ≡ bar ∷ bs → ⊥) }
    ensures back { (text : List ℕ) → clause_fault text ≡ None →
        (ends_with comma text ≡ false) × (ends_with bar text ≡ false)
        × (ends_with less text ≡ false)
        × (ends_with greater text ≡ false) × (ends_with equals text ≡ false) }
{
    version::grammar_laws();
}

/// The characters that stay, and their places, are those that the text says: all that are no
/// spaces, and the spaces that part two of them. A text without spaces is kept as it is, and each
/// of its characters stays where it stood. No place lies behind the end of a text.
pub fn kept_laws()
    ensures stay { (text chars at : List ℕ) →
        IsKept text chars at ↔ ((chars ≡ kept text) × (at ≡ places text)) }
    ensures same { (text : List ℕ) → list_all (λ b. not (b == space)) text ≡ true →
        kept text ≡ text }
    ensures places { (text : List ℕ) → list_all (λ b. not (b == space)) text ≡ true →
        (i : ℕ) → i ≤ length text → place_of text i ≡ i }
    ensures inside { (text : List ℕ) (i : ℕ) → place_of text i ≤ length text }
{}

/// The texts without a fault are those of the grammar, and no others.
pub fn grammar_laws()
    ensures only { (text : List ℕ) → clause_fault text ≡ None → IsClause text }
    ensures all { (text : List ℕ) → IsClause text → clause_fault text ≡ None }
{
    version::grammar_laws();
}

/// A text is read as a test where the table of tests has it, and as no other test. Each character
/// of a version is one that a version may hold.
pub fn test_laws()
    ensures only { (text : List ℕ) (test : Test) → test_of text ≡ Some test → IsTest text test }
    ensures all { (text : List ℕ) (test : Test) → IsTest text test → test_of text ≡ Some test }
    ensures chars { (text : List ℕ) → IsFaultless text → list_all is_version_char text ≡ true }
{
    version::grammar_laws();
}

/// The first piece of a text, and those behind it.
pub fn piece_laws()
    ensures { (text : List ℕ) → 0 < length text →
        pieces.pieces text
        ≡ take (pieces.piece_len text) text ∷ pieces.pieces (drop (pieces.piece_len text) text) }
{}

/// What a clause says is what its tree says, whatever tree its text writes.
pub fn truth_laws()
    ensures tree { (text : List ℕ) (tree : Tree or) → Writes tree text →
        (version : List ℕ) → clause_holds text version ≡ tree_holds tree version }
    // So `|` is or, `,` between parts is and, parentheses change nothing, and a test alone says
    // what it says.
    ensures either { (a b version : List ℕ) → IsClause a → IsClause b →
        clause_holds (a ++ bar ∷ b) version ≡ (clause_holds a version || clause_holds b version) }
    ensures both { (a b version : List ℕ) → IsPart a → IsPart b →
        clause_holds (a ++ comma ∷ b) version ≡ (clause_holds a version && clause_holds b version) }
    ensures parens { (a version : List ℕ) → IsClause a →
        clause_holds (open_paren ∷ a ++ close_paren ∷ []) version ≡ clause_holds a version }
    ensures alone { (text : List ℕ) (test : Test) → IsTest text test →
        (version : List ℕ) → clause_holds text version ≡ test_holds test version }
    // Of versions that are equal in order it says the same.
    ensures alike { (text x y : List ℕ) → version_cmp x y ≡ Equal →
        clause_holds text x ≡ clause_holds text y }
{
    version::grammar_laws();
    version::order_laws();
}

/// How a clause is written where a build follows, and that it holds for the same versions there.
pub fn beside_laws()
    ensures written { (text beside : List ℕ) → clause_fault text ≡ None →
        IsBesideBuild text beside ↔ (beside ≡ beside_build text) }
    ensures holds { (text version : List ℕ) → clause_fault text ≡ None →
        clause_holds (beside_build text) version ≡ clause_holds text version }
{
    version::grammar_laws();
}
