// Reading the files of a batch, one after another.
ghost use Rattle.std.specs.Prelude.{◌≡◌, ◌≤◌, map, string_bytes, IfOk};
ghost use Rattle.import_work.specs.Reads.{AreTexts, IsTextOf, file_text, file_texts, text_names};

use kb_edges::{Folder, FolderError};
use kb_geometry::{NoMemory, Text};
use sgf_reader::MAX_FILE;
use std::alloc::Global;

// A file by its name, and its bytes, if they were read.
#[derive(Debug, Drop)]
pub(crate) struct ReadFile {
    pub name: Text,
    pub bytes: Option<Vec<u8>>,
}

// Reads one file. The only error is `NoMemory`.
fn read_one<F: Folder>(
    alloc: Global,
    folder: &mut F,
    path: &str,
    name: &str,
) -> Result<ReadFile, NoMemory>
    ensures named { IfOk result (λ file. file.name ≡ name.now) }
    ensures read { IfOk result (λ file. IsTextOf (F.files folder.old) path.now name.now
        (file_text file).bytes (F.faults folder.old) (F.faults folder.new)) }
    ensures same { F.files folder.new ≡ F.files folder.old }
    ensures later { F.faults folder.old ≤ F.faults folder.new }
{
    let own_name = Text::new(String::from_str(alloc, name)?);
    let bytes = match folder.read(alloc, path, name, MAX_FILE as usize) {
        Ok(bytes) => Some(bytes),
        Err(FolderError::NoMemory) => return Err(NoMemory),
        Err(FolderError::Failed) => None,
        Err(FolderError::Missing) => None,
    };
    Ok(ReadFile {
        name: own_name,
        bytes,
    })
}

// Reads the files of these names, in order.
pub(crate) fn read_all<F: Folder>(
    alloc: Global,
    folder: &mut F,
    path: &str,
    names: &[String],
) -> Result<Vec<ReadFile>, NoMemory>
    ensures named { IfOk result (λ files.
        text_names (file_texts files.items) ≡ map string_bytes names.now) }
    ensures read { IfOk result (λ files. AreTexts (F.files folder.old) path.now
        (F.faults folder.old) (file_texts files.items) (F.faults folder.new)) }
    ensures same { F.files folder.new ≡ F.files folder.old }
    ensures later { F.faults folder.old ≤ F.faults folder.new }
{
    let mut files = Vec::new(alloc);
    for name in names {
        let file = read_one(alloc, folder, path, name.as_str())?;
        files.push(file)?;
    }
    Ok(files)
}
