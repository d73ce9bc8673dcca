ghost use Rattle.std.specs.Prelude.{◌≡◌, List, Ok, ℕ};
ghost use Rattle.std.specs.List.{AllByRecursion};
ghost use Rattle.conda_paths.specs.Listings.{listing_read};
ghost use Rattle.conda_paths.specs.declared.listing.Listing.{Listing};
ghost use Rattle.conda_link.specs.Links.{link_read};
ghost use Rattle.conda_link.specs.declared.info.LinkInfo.{LinkInfo};
ghost use Rattle.conda_placing.specs.Placing.{IsLinkEntry, IsListed};

use conda_link::link_laws;
use conda_paths::listing_laws;

/// The rows of each listing that is read, and the entry points of each link file that is read, are
/// as a package that is to be linked has them.
pub fn package_laws()
    ensures listing { (bytes : List ℕ) (listing : Listing) → listing_read bytes ≡ Ok listing
        → AllByRecursion IsListed listing.rows }
    ensures link { (bytes : List ℕ) (link : LinkInfo) → link_read bytes ≡ Ok link
        → AllByRecursion IsLinkEntry link.entries }
{
    listing_laws();
    link_laws();
}
