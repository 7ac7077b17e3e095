// What an import takes its games from.
use kb_geometry::Text;

/// What an import takes its games from.
#[derive(Debug, Drop)]
pub enum Source {
    /// The files of a folder under this path.
    Under { path: Text },
    /// So many made games, of which the first begins with the number `start`.
    Made { games: u32, start: u32 },
}
