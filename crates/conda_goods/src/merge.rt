ghost use Rattle.std.specs.Prelude.{◌≡◌, ◌++◌, IfErr, IfOk, OnOk};
ghost use Rattle.std.specs.List.{AllPairs};
ghost use Rattle.conda_goods.specs.Conflicts.{NamesFirstConflict, NoConflict, OwnersRepeatNoPath};
ghost use Rattle.conda_goods.specs.Conflicts.{ShareNoPath, goods_of};
ghost use Rattle.conda_base.specs.Texts.{Ascending};
ghost use Rattle.conda_goods.specs.Goods.{IsSortedOf, paths_of};

use crate::conflict::first_conflict;
use crate::error::GoodsErr;
use crate::goods::Goods;
use crate::owned::Owned;
use conda_base::Copied;
use conda_path::{Good, RelPath};
use std::alloc::{AllocError, Global};

/// Adds the goods of a part.
fn add_goods(goods: &mut Vec<Good>, part: &Owned) -> Result<(), AllocError>
    ensures goods { OnOk result (goods.new.items ≡ goods.old.items ++ part.now.goods) }
    ensures ascending { Ascending (paths_of part.now.goods) }
{
    for good in part.goods.list() {
        goods.push(good.copy()?)?;
    }
    Ok(())
}

/// The goods of all parts, ascending by path.
fn sorted_goods(alloc: Global, parts: &[Owned]) -> Result<Goods, AllocError>
    requires { AllPairs ShareNoPath parts.now }
    ensures { IfOk result (λ goods. IsSortedOf (goods_of parts.now) goods) }
{
    let mut goods = Vec::new(alloc);
    for part in parts {
        add_goods(&mut goods, part)?;
    }
    Goods::make(goods)
}

/// The goods of all parts, ascending by path.
///
/// `Clobber` comes exactly where two owners have one path, or the path of one lies below the path
/// of another. It names the least such path, the longer one of a pair, and the first two owners in
/// order. `others` are paths that belong to nobody's goods; their owner is shown as `Other` and
/// comes last, also behind a part of `Other`, which is another owner.
///
/// No path stands in two parts of one owner.
pub fn union(alloc: Global, parts: &[Owned], others: &[RelPath]) -> Result<Goods, GoodsErr>
    requires { OwnersRepeatNoPath parts.now }
    ensures goods { IfOk result (λ goods. IsSortedOf (goods_of parts.now) goods) }
    ensures ok { OnOk result (NoConflict parts.now others.now) }
    ensures clobber { IfErr result (NamesFirstConflict parts.now others.now) }
{
    match first_conflict(alloc, parts, others) {
        Ok(Some(clobber)) => Err(clobber),
        Ok(None) => match sorted_goods(alloc, parts) {
            Ok(goods) => Ok(goods),
            Err(_) => Err(GoodsErr::Memory),
        },
        Err(_) => Err(GoodsErr::Memory),
    }
}
