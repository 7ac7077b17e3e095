// The files of a folder in memory.

/// A file of a folder in memory.
#[derive(Drop)]
pub struct FileEntry {
    /// The folder that it stands in.
    pub path: String,
    /// Its name in that folder.
    pub name: String,
    /// Its content.
    pub bytes: Vec<u8>,
}
