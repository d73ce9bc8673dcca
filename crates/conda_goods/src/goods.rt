ghost use Rattle.std.specs.Prelude.{◌≡◌, ◌≢◌, IfOk};
ghost use Rattle.std.specs.List.{AllPairs};
ghost use Rattle.std.specs.Cmp.Lexicographic.{slice_cmp};
ghost use Rattle.std.specs.Ordering.{nat_cmp};
ghost use Rattle.conda_base.specs.Texts.{Ascending};
ghost use Rattle.conda_goods.specs.Goods.{IsSortedOf, paths_of};

use conda_base::{Copied, Rows};
use conda_path::Good;
use std::alloc::AllocError;
use std::cmp::Ordering;
use std::marker::Model;

/// Goods ascending by path, no two with one path. Contracts see them as a list.
#[derive(Clone, Debug, PartialEq, Eq, Drop)]
pub struct Goods {
    goods: Rows<Good>,
}

impl Model for Goods {
    ghost use Rattle.std.specs.Prelude.{List};
    ghost use Rattle.conda_base.specs.Texts.{Ascending};
    ghost use Rattle.conda_path.specs.declared.values.Good.{Good};
    ghost use Rattle.conda_goods.specs.Goods.{paths_of};

    ghost Value = { List Good };

    ghost view = { λ g. g.goods };

    ghost inverse = { λ goods. record { goods = goods } };

    ghost invariant = { λ g. Ascending (paths_of g.goods) };
}

impl Goods {
    /// The same goods, ascending by path. No two of them have one path.
    pub fn make(goods: Vec<Good>) -> Result<Goods, AllocError>
        requires { AllPairs (λ a b. a.path ≢ b.path) goods.items }
        ensures { IfOk result (λ made. IsSortedOf goods.items made) }
    {
        let mut goods = goods;
        goods.sort_by(
            |first: &Good, second: &Good| -> Ordering
                ensures { result ≡ slice_cmp nat_cmp first.now.path second.now.path }
            { first.path.cmp(&second.path) },
        )?;
        Ok(Goods {
            goods: Rows::from_vec(goods),
        })
    }

    /// The goods in order. It takes no memory.
    pub fn list(&self) -> &[Good]
        ensures same { result.now ≡ self.now }
        ensures ascending { Ascending (paths_of self.now) }
    {
        self.goods.as_slice()
    }
}

impl Copied for Goods {
    fn copy(&self) -> Result<Goods, AllocError> {
        self.clone()
    }
}
