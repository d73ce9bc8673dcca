ghost use Rattle.std.specs.Prelude.{◌≡◌, ◌+◌, ◌<◌, ◌^◌, ◌++◌, IfOk, OnOk, filter, length, map, position, None, if◌then◌else◌};
ghost use Rattle.conda_encode.specs.Known.{starts_of};
ghost use Rattle.conda_encode.specs.Variables.{IsRequest, numbered};
ghost use Rattle.conda_resolve.specs.Asking.{ranked_variables};
ghost use Rattle.conda_resolve.specs.Choice.{has_name, is_fresh, is_installed};

use crate::names::{has_name, is_same_slot, is_wanted};
use crate::places::Places;
use conda_base::{Copied, Text};
use conda_encode::Asked;
use conda_record::{NamePool, PkgRecord};
use std::alloc::{AllocError, Global};

/// Whether a wanted item asks for the newest package of the name.
fn is_fresh(asked: &[Asked], name: &str) -> bool
    ensures { result ≡ is_fresh asked.now name.now }
{
    asked.iter().any(|item| is_wanted(item.kind) && item.fresh && name == item.spec.name())
}

/// The installed records of the name.
fn installed_of(
    alloc: Global,
    installed: &[PkgRecord],
    name: &str,
) -> Result<Vec<PkgRecord>, AllocError>
    ensures { IfOk result (λ list. list.items ≡ filter (has_name name.now) installed.now) }
{
    let mut list = Vec::new(alloc);
    for pkg in installed {
        if has_name(name, pkg) {
            list.push(pkg.copy()?)?;
        }
    }
    Ok(list)
}

/// Whether one of these records is installed here.
fn is_installed(installed: &[PkgRecord], pkg: &PkgRecord) -> bool
    ensures { result ≡ is_installed installed.now pkg.now }
{
    installed.iter().any(|other| is_same_slot(pkg, other))
}

/// The place of the first of the records that is one of those installed.
fn first_installed(installed: &[PkgRecord], recs: &[PkgRecord]) -> Option<usize>
    ensures { result ≡ position (is_installed installed.now) recs.now }
{
    recs.iter().position(|pkg| is_installed(installed, pkg))
}

/// The place of the record that comes before the others because it is installed.
fn installed_place(
    alloc: Global,
    asked: &[Asked],
    installed: &[PkgRecord],
    recs: &[PkgRecord],
    name: &str,
) -> Result<Option<usize>, AllocError>
    ensures { IfOk result (λ place. place ≡ (if is_fresh asked.now name.now then None
        else position (is_installed (filter (has_name name.now) installed.now)) recs.now)) }
{
    if is_fresh(asked, name) {
        return Ok(None);
    }
    let own = installed_of(alloc, installed, name)?;
    Ok(first_installed(own.as_slice(), recs))
}

/// Adds the variables of so many records, of which the first has this one.
fn add_variables(list: &mut Vec<u32>, first: u32, recs: &[PkgRecord]) -> Result<(), AllocError>
    requires { first + length recs.now < 2 ^ 31 }
    ensures { OnOk result (list.new.items
        ≡ list.old.items ++ map (λ x. x.0) (numbered first recs.now)) }
{
    for at in 0..recs.len() {
        list.push(first + at as u32)?;
    }
    Ok(())
}

/// The variables of the records of the name, in the order in which they are tried.
pub fn ranked(
    alloc: Global,
    places: &Places,
    pools: &[NamePool],
    asked: &[Asked],
    installed: &[PkgRecord],
    name: &Text,
) -> Result<Vec<u32>, AllocError>
    requires request { IsRequest pools.now asked.now }
    requires starts { places.now.starts.items ≡ starts_of 1 pools.now }
    ensures { IfOk result (λ list. list.items
        ≡ map (λ x. x.0) (ranked_variables pools.now asked.now installed.now name.now)) }
{
    let mut list = Vec::new(alloc);
    let Some(at) = places.place(pools, name) else {
        return Ok(list);
    };
    let first = places.starts[at];
    let recs = pools[at].recs.as_slice();
    if let Some(place) = installed_place(alloc, asked, installed, recs, name.as_str())? {
        list.push(first + place as u32)?;
    }
    add_variables(&mut list, first, recs)?;
    Ok(list)
}
