// Laws. Each stands as a contract of a function that does nothing.
ghost use Rattle.std.specs.Prelude.{[], ℕ};

use crate::finder::Finder;

/// In no games nothing is found, by any finder. So a new [`Standing`](crate::Standing) may be
/// advanced with each.
pub fn nothing_is_found_in_no_games<N: Finder>()
    ensures { (finder : N) (first : ℕ) → N.finds finder first [] [] }
{}
