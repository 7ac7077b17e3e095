// Laws. Each stands as a contract of a function that does nothing.
ghost use Rattle.std.specs.Prelude.{◌≡◌};
ghost use Rattle.segment_store.specs.declared.segment.TheConstants.{MAX_BASE_GAMES};

/// The limit on the games of a base, which this crate and those above test, is 400,000.
pub fn a_base_has_at_most_400_000_games()
    ensures { MAX_BASE_GAMES ≡ 400000 }
{}
