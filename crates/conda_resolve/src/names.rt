ghost use Rattle.std.specs.Prelude.{◌≡◌, ◌++◌, IfOk, OnOk, map};
ghost use Rattle.conda_resolve.specs.Choice.{has_name, is_same_slot, is_wanted, names_wanted, needs_of};

use conda_encode::{AskKind, Asked, is_lowered};
use conda_record::PkgRecord;
use conda_spec::Spec;
use std::alloc::{AllocError, Global};

/// Whether the record has the name, which is in lower case.
pub fn has_name(name: &str, pkg: &PkgRecord) -> bool
    ensures { result ≡ has_name name.now pkg.now }
{
    is_lowered(pkg.name.as_str(), name)
}

/// Whether two records have one slot in the cache.
pub fn is_same_slot(a: &PkgRecord, b: &PkgRecord) -> bool
    ensures { result ≡ is_same_slot a.now b.now }
{
    a.dist == b.dist && a.channel == b.channel && a.subdir == b.subdir
}

pub fn is_wanted(kind: AskKind) -> bool
    ensures { result ≡ is_wanted kind }
{
    match kind {
        AskKind::Wanted => true,
        AskKind::Pinned => false,
    }
}

/// The specifications that are wanted, in the order of the items.
pub fn wanted_specs(alloc: Global, asked: &[Asked]) -> Result<Vec<&Spec>, AllocError>
    ensures { IfOk result (λ specs. map (λ s. s.now.name) specs.items ≡ names_wanted asked.now) }
{
    let mut specs = Vec::new(alloc);
    for item in asked {
        if is_wanted(item.kind) {
            specs.push(&item.spec)?;
        }
    }
    Ok(specs)
}

/// Adds what the record needs.
pub fn add_needs<'a>(specs: &mut Vec<&'a Spec>, pkg: &'a PkgRecord) -> Result<(), AllocError>
    ensures { OnOk result (map (λ s. s.now.name) specs.new.items
        ≡ map (λ s. s.now.name) specs.old.items ++ needs_of pkg.now) }
{
    for need in pkg.depends.as_slice() {
        specs.push(need)?;
    }
    Ok(())
}
