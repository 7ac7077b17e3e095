// How many games a version has, and its games by their numbers.
ghost use Rattle.std.specs.Prelude.{◌≡◌, ◌≤◌, length};
ghost use Rattle.std.specs.List.{slice_get};
ghost use Rattle.std.specs.Option.{option_map};
ghost use Rattle.version_publisher.specs.Contents.{items_in};

use segment_store::{FinishedGame, Segment};
use version_publisher::Version;

/// How many games a version has, at most 400,000.
pub fn game_count(version: &Version<Segment>) -> u32
    ensures value { result ≡ length (items_in version.now.parts) }
    ensures most { result ≤ 400000 }
{
    let mut count = 0;
    for part in version.parts() {
        count += part.game_count();
    }
    count
}

/// The game with this number, from 0, if the version has so many.
pub fn find_game<'a>(version: &'a Version<Segment>, number: u32) -> Option<&'a FinishedGame>
    ensures { option_map (λ g. g.now) result ≡ slice_get (items_in version.now.parts) number }
{
    let mut first = 0;
    for part in version.parts() {
        let part: &'a Segment = &*part;
        if number - first < part.game_count() {
            return Some(part.finished(number - first));
        }
        first += part.game_count();
    }
    None
}
