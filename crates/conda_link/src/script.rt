ghost use Rattle.std.specs.Prelude.{◌≡◌, IfOk, OnErr, Err, string_bytes};
ghost use Rattle.conda_link.specs.Scripts as scripts;
ghost use Rattle.conda_link.specs.Scripts.{script};
ghost use Rattle.conda_link.specs.declared.error.LinkErr.{LinkErr};

use crate::error::LinkErr;
use crate::info::EntryPoint;
use conda_base::{cut_first, cut_laws};
use conda_path::Prefix;
use std::alloc::{AllocError, Global};

/// The name that a script imports: the function's up to its first dot.
fn imported(func: &str) -> &str
    ensures { result.now ≡ scripts.imported func.now }
{
    cut_laws();
    match cut_first(func, b'.') {
        Some((name, _)) => name,
        None => func,
    }
}

fn text_of(
    alloc: Global,
    prefix: &str,
    module_name: &str,
    name: &str,
    func: &str,
) -> Result<String, AllocError>
    ensures { IfOk result (λ text. string_bytes text
        ≡ scripts.text_of prefix.now module_name.now name.now func.now) }
{
    let mut text = String::new(alloc);
    text.push_str("#!")?;
    text.push_str(prefix)?;
    text.push_str("/bin/python\n# -*- coding: utf-8 -*-\nimport re\nimport sys\n\nfrom ")?;
    text.push_str(module_name)?;
    text.push_str(" import ")?;
    text.push_str(name)?;
    text.push_str("\n\nif __name__ == '__main__':\n    sys.argv[0] = re.sub(")?;
    text.push_str("r'(-script\\.pyw?|\\.exe)?$', '', sys.argv[0])\n    sys.exit(")?;
    text.push_str(func)?;
    text.push_str("())\n")?;
    Ok(text)
}

/// The script that starts an entry point in an environment, byte for byte as conda writes it.
/// Its only error is `Memory`.
pub fn script_text(alloc: Global, prefix: &Prefix, entry: &EntryPoint) -> Result<Vec<u8>, LinkErr>
    ensures text { IfOk result (λ text. text.items ≡ script prefix.now entry.now) }
    ensures err { OnErr result (result ≡ Err LinkErr.Memory) }
{
    let func = entry.func.as_str();
    let text = text_of(
        alloc,
        prefix.as_str(),
        entry.module.as_str(),
        imported(func),
        func,
    )?;
    Ok(text.into_bytes())
}
