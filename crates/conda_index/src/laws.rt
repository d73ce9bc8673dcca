ghost use Rattle.std.specs.Prelude.{◌≡◌, ◌↔◌, ◌<◌, ◌∷◌, ◌++◌, ℕ, List, Contains, Some, false, true};
ghost use Rattle.std.specs.Cmp.{IsTotalOrder};
ghost use Rattle.std.specs.List.{AllByRecursion};
ghost use Rattle.std.specs.declared.cmp.Ordering.TheVariants.{Equal, Less};
ghost use Rattle.conda_version.specs.Order.{version_cmp};
ghost use Rattle.conda_record.specs.Rules.{IsWellFormed};
ghost use Rattle.conda_record.specs.declared.pkg_record.PkgRecord.{PkgRecord};
ghost use Rattle.conda_index.specs.Names.{is_named};
ghost use Rattle.conda_index.specs.Order.{index_cmp, plain_cmp};
ghost use Rattle.conda_index.specs.Pools.{NamesPlainly, channel_pool, first_channel};

use conda_version as version;

/// Plain order, and the order of an index, are total preorders. A greater version comes first; of
/// records with equal versions a greater build number does.
pub fn order_laws()
    ensures plain { IsTotalOrder plain_cmp }
    ensures index { IsTotalOrder index_cmp }
    ensures version { (a b : PkgRecord) → version_cmp b.version a.version ≡ Less → plain_cmp a b ≡ Less }
    ensures number { (a b : PkgRecord) → version_cmp b.version a.version ≡ Equal →
        b.build_number < a.build_number → plain_cmp a b ≡ Less }
{
    version::order_laws();
}

/// What the first channel of a name and its pool mean: there is a record of the name in the channel,
/// and none of the name before it. The pool has the records of the name in that channel, and no
/// others. A well-formed record, as each is that a reader gives, names packages without a star.
pub fn index_laws()
    ensures first { (records : List PkgRecord) (name channel : List ℕ) →
        (first_channel records name ≡ Some channel)
        ↔ ((before : List PkgRecord) × (pkg : PkgRecord) × (behind : List PkgRecord)
        × (records ≡ before ++ pkg ∷ behind)
        × AllByRecursion (λ other. is_named name other ≡ false) before
        × (is_named name pkg ≡ true) × (pkg.channel ≡ channel)) }
    ensures pool { (records : List PkgRecord) (name : List ℕ) (pkg : PkgRecord) →
        Contains (channel_pool records name) pkg
        ↔ (Contains records pkg × (is_named name pkg ≡ true)
        × (first_channel records name ≡ Some pkg.channel)) }
    ensures plain { (pkg : PkgRecord) → IsWellFormed pkg → NamesPlainly pkg }
{}
