ghost use Rattle.std.specs.Prelude.{◌≡◌, ◌+◌, IfOk, IfSome, IsSome, MatchOption, None, Some, length};
ghost use Rattle.conda_clause.specs.Clause.{beside_build};
ghost use Rattle.conda_base.specs.Reads.{Gives};
ghost use Rattle.conda_clause.specs.Faults.{spec_fault_of};
ghost use Rattle.conda_spec.specs.Good.{IsGoodClause, IsGoodFront, IsGoodGiven};
ghost use Rattle.conda_spec.specs.Parts.{IsSpec};
ghost use Rattle.conda_spec.specs.Reading.{brackets_of, spec_parts, spec_read, version_beside};

use crate::cuts::without_last;
use crate::given::{Given, nothing};
use crate::head::{Front, front};
use crate::held::Held;
use crate::items::items;
use crate::spec::Spec;
use conda_base::{Text, cut_last};
use conda_clause::{SpecErr, VersionClause};
use std::alloc::{AllocError, Global};
use std::sync::Arc;

// What stands before the brackets, and what stands in them.
fn brackets_of(text: &str) -> Option<(&str, &str)>
    ensures cut { MatchOption result (brackets_of text.now ≡ None) (λ x. brackets_of text.now ≡ Some (x.0.now, x.1.now)) }
    ensures len { IfSome result (λ x. length x.0.now + length x.1.now + 2 ≡ length text.now) }
{
    cut_last(without_last(text, ']')?, b'[')
}

// Where a build is given, a version is too, in the form that it has beside a build.
fn version_beside(
    alloc: Global,
    build: &Option<Text>,
    version: Option<VersionClause>,
) -> Result<Option<VersionClause>, AllocError>
    requires { IfSome version IsGoodClause }
    ensures value { IfOk result (λ v. v ≡ version_beside build.now version) }
    ensures good { IfOk result (λ v. IfSome v IsGoodClause) }
    ensures together { IfOk result (λ v. IsSome build.now → IfSome v (λ clause. beside_build clause ≡ clause) × IsSome v) }
{
    match (build, version) {
        (None, version) => Ok(version),
        (Some(_), Some(clause)) => {
            let beside = clause.beside_build(alloc)?;
            Ok(Some(beside))
        }
        (Some(_), None) => {
            let any = VersionClause::any(alloc)?;
            let beside = any.beside_build(alloc)?;
            Ok(Some(beside))
        }
    }
}

// What is given in the brackets wins.
fn spec_of(alloc: Global, front: Front, given: Given) -> Result<Spec, AllocError>
    requires front { IsGoodFront front }
    requires given { IsGoodGiven given }
    ensures value { IfOk result (λ s. s ≡ spec_parts front given) }
    ensures good { IfOk result IsSpec }
{
    let (name, before) = front;
    let build = given.build.or(before.build);
    let version = version_beside(alloc, &build, given.version.or(before.version))?;
    let held = Arc::new(
        alloc,
        Held {
            channel: given.channel.or(before.channel),
            subdir: given.subdir.or(before.subdir),
            name,
            version,
            build,
            number: given.number,
        },
    )?;
    Ok(Spec { held })
}

/// Reads a specification without spaces at its ends.
#[tactic(auto, unfolding(crate::specs::Reading::spec_read))]
pub fn read(alloc: Global, text: &str) -> Result<Spec, SpecErr>
    ensures read { Gives spec_fault_of result (spec_read text.now) }
    ensures good { IfOk result IsSpec }
{
    match brackets_of(text) {
        None => {
            let front = front(alloc, text)?;
            Ok(spec_of(alloc, front, nothing())?)
        }
        Some((before, inside)) => {
            let front = front(alloc, before)?;
            let given = items(alloc, before.len() + 1, inside)?;
            Ok(spec_of(alloc, front, given)?)
        }
    }
}
