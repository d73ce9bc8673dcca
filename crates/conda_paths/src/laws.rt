ghost use Rattle.std.specs.Prelude.{◌≡◌, ◌↔◌, Ok};
ghost use Rattle.serde_json.specs.Data.{Data};
ghost use Rattle.conda_paths.specs.Listings.{listing_of};
ghost use Rattle.conda_paths.specs.Rules.{IsListing};
ghost use Rattle.conda_paths.specs.declared.listing.Listing.{Listing};

/// What is read of an object is the listing that it is: of version 1, with a list of rows, each of
/// which says what its element says; no path stands twice, and none lies in `conda-meta`.
pub fn listing_laws()
    ensures { (value : Data) (listing : Listing) →
        (listing_of value ≡ Ok listing) ↔ IsListing value listing }
{}
