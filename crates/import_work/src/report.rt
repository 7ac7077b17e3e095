// What the report of an import tells.
use crate::batch::FileLines;

/// What the report of an import tells of its files, or of made games.
#[derive(Debug, Drop)]
pub enum ReportBody {
    /// What became of each file, in order of their names.
    Files { lines: FileLines },
    /// The folder could not be listed, or no file has the path.
    Unlisted,
    /// So many names were listed, more than an import may have.
    TooMany { listed: u64 },
    /// So many made games were added, and for so many there was no room.
    Made { games: u32, full: u32 },
}

/// The report of an import.
#[derive(Debug, Drop)]
pub struct Report {
    /// The line of the script at which the import stands.
    pub line: u32,
    pub body: ReportBody,
    /// The number of the version that has the games of the import.
    pub version: u64,
}
