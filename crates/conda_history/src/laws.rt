ghost use Rattle.std.specs.Prelude.{◌≡◌, ◌↔◌, Err, List, Ok, ℕ};
ghost use Rattle.std.specs.List.{AllByRecursion};
ghost use Rattle.conda_history.specs.Blocks.{IsBadAt, IsBlock, IsHistory};
ghost use Rattle.conda_history.specs.Reading.{history_read};
ghost use Rattle.conda_history.specs.Texts.{AreTexts, history_text};
ghost use Rattle.conda_history.specs.declared.revision.Block.{Block};
ghost use Rattle.conda_history.specs.declared.revision.History.{History};

use conda_base::cut_laws;
use conda_path::{dist_laws, ending_laws};

/// What is read from bytes: the blocks that their lines mean, where they are a history; else the
/// number of the first line that is none of one. What is read has its lists in order.
pub fn grammar_laws()
    ensures meaning { (bytes : List ℕ) (history : History) →
        (history_read bytes ≡ Ok history) ↔ IsHistory bytes history.blocks }
    ensures fault { (bytes : List ℕ) (line : ℕ) →
        (history_read bytes ≡ Err line) ↔ IsBadAt bytes line }
    ensures good { (bytes : List ℕ) (history : History) →
        history_read bytes ≡ Ok history → AllByRecursion IsBlock history.blocks }
{
    cut_laws();
    dist_laws();
    ending_laws();
}

/// The text of blocks with their lists in order, whose dists are texts, is read as these blocks.
pub fn text_laws()
    ensures { (blocks : List Block) → AllByRecursion IsBlock blocks → AreTexts blocks →
        history_read (history_text blocks) ≡ Ok (record { blocks = blocks }) }
{
    cut_laws();
    dist_laws();
    ending_laws();
}
