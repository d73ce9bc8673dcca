ghost use Rattle.std.specs.Prelude.{◌≡◌, ◌≢◌, ◌↔◌, ◌++◌, ℕ, List, Ok, Some, codes};
ghost use Rattle.serde_json.specs.Data.{Data};
ghost use Rattle.conda_link.specs.Links.{entry_of, noarch_read};
ghost use Rattle.conda_link.specs.Places.{placed};
ghost use Rattle.conda_link.specs.Rules.{IsEntry, IsLinkFile};
ghost use Rattle.conda_link.specs.declared.info.EntryPoint.{EntryPoint};

use conda_base::cut_laws;

/// What is read of a text, and of a link file's object, is what it spells.
pub fn link_laws()
    ensures entry { (text : List ℕ) (entry : EntryPoint) →
        (entry_of text ≡ Some entry) ↔ IsEntry text entry }
    ensures file { (value : Data) (entries : List EntryPoint) →
        (noarch_read value ≡ Ok entries) ↔ IsLinkFile value entries }
{
    cut_laws();
}

/// Where files go: those of `site-packages` to the Python's own, those of `python-scripts` to
/// `bin`; others stay.
pub fn place_laws()
    ensures site { (python rest : List ℕ) → placed python (codes "site-packages/" ++ rest)
        ≡ codes "lib/python" ++ python ++ codes "/" ++ (codes "site-packages/" ++ rest) }
    ensures scripts { (python rest : List ℕ) →
        placed python (codes "python-scripts/" ++ rest) ≡ codes "bin/" ++ rest }
    ensures other { (python path : List ℕ) →
        ((rest : List ℕ) → path ≢ codes "site-packages/" ++ rest) →
        ((rest : List ℕ) → path ≢ codes "python-scripts/" ++ rest) →
        placed python path ≡ path }
{
    cut_laws();
}
