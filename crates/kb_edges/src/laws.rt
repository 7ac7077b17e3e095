// Laws of limits and of listings. Each stands as a contract of a function that does nothing.
ghost use Rattle.std.specs.Prelude.{◌≡◌, ℕ, List};
ghost use Rattle.kb_edges.specs.declared.traits.TheConstants.{MAX_LIMIT};
ghost use Rattle.kb_edges.specs.Files.{File, IsListing};

/// The greatest limit of a read is 268,435,456 bytes.
pub fn the_greatest_limit_is_268435456()
    ensures { MAX_LIMIT ≡ 268435456 }
{}

/// Each folder and path has a listing.
pub fn each_path_has_a_listing()
    ensures { (files : List File) (path : List ℕ) →
        (names : List (List ℕ)) × IsListing files path names }
{}
