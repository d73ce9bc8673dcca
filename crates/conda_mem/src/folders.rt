ghost use Rattle.std.specs.Prelude.{◌≡◌, ◌&&◌, not, ℕ, List, IfNone, IfSome};
ghost use Rattle.conda_base.specs.Texts.{is_text};
ghost use Rattle.conda_path.specs.Paths.{is_bad_part};
ghost use Rattle.conda_mem.specs.Folders.{IsIndexOf};

use conda_base::{cut_last, cut_laws};

/// Whether a folder can't have this name, since it is empty, `.` or `..`.
fn is_bad_name(name: &[u8]) -> bool
    ensures { result ≡ is_bad_part name.now }
{
    match name {
        [] => true,
        [a] => *a == b'.',
        [a, b] => *a == b'.' && *b == b'.',
        _ => false,
    }
}

/// Whether a folder is the subdir, and may hold another one of this name.
fn is_in(folder: &str, subdir: &str, name: &str) -> bool
    ensures { result ≡ (is_text folder.now subdir.now && not (is_bad_part name.now)) }
{
    folder.as_bytes() == subdir.as_bytes() && !is_bad_name(name.as_bytes())
}

/// The name of the subdir's folder whose index file stands at this path. It takes no memory.
pub fn folder_in<'a>(path: &'a str, subdir: &str) -> Option<&'a str>
    ensures some { IfSome result (λ name. IsIndexOf subdir.now path.now name.now) }
    ensures none { IfNone result ((name : List ℕ) → ¬ IsIndexOf subdir.now path.now name) }
{
    cut_laws();
    let Some(front) = path.strip_suffix("/info/index.json") else {
        return None;
    };
    let Some((folder, name)) = cut_last(front, b'/') else {
        return None;
    };
    if is_in(folder, subdir, name) {
        return Some(name);
    }
    None
}
