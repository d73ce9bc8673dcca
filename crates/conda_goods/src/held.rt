ghost use Rattle.std.specs.Prelude.{◌≡◌, ◌||◌, option_copied, Some};
ghost use Rattle.conda_goods.specs.Claims as claims_spec;
ghost use Rattle.conda_goods.specs.Claims.{held_by_other};
ghost use Rattle.conda_goods.specs.Conflicts.{Holder};

use crate::owner::Owner;

/// Who has a path: one holder, where None is the one who has the other paths, or several.
#[derive(Clone, Copy)]
pub enum Held<'a> {
    One(Option<&'a Owner>),
    Several,
}

/// Whether two holders are two. It takes no memory.
pub fn differ(a: Option<&Owner>, b: Option<&Owner>) -> bool
    ensures { result ≡ claims_spec.differ (option_copied a.entry) (option_copied b.entry) }
{
    match (a, b) {
        (None, None) => false,
        (Some(a), Some(b)) => a != b,
        _ => true,
    }
}

/// Who has a path that one more holder has.
pub fn joined<'a>(held: Option<Held<'a>>, holder: Option<&'a Owner>) -> Held<'a>
    ensures { (other : Holder) → held_by_other other (Some result)
        ≡ held_by_other other held.entry || claims_spec.differ (option_copied holder.entry) other }
{
    match held {
        None => Held::One(holder),
        Some(Held::One(one)) if !differ(one, holder) => Held::One(one),
        Some(_) => Held::Several,
    }
}

/// Whether another holder has the path. It takes no memory.
pub fn is_other(held: Option<Held<'_>>, holder: Option<&Owner>) -> bool
    ensures { result ≡ held_by_other (option_copied holder.entry) held.entry }
{
    match held {
        None => false,
        Some(Held::One(one)) => differ(one, holder),
        Some(Held::Several) => true,
    }
}
