// The adapters over the system: what is read, written and listed, and what a failing call answers.
ghost use Rattle.std.specs.Prelude.{◌≤◌};

use kb_edges::{
    Folder, FolderError, MAX_LIMIT, MemorySource, ReadFailed, RealFolder, RealSink, RealSource,
    Sink, SinkError, Source,
};
use std::alloc::{Allocator, Global};
use std::fs;
use std::fs::{File, Metadata, OpenOptions};
use std::io::{BufWriter, Error, ErrorKind, Read, Result as IoResult, Write};
use std::process::Abort;
use std::rt::Files;
use std::test::Fail;

// Reads until a call gives nothing or fails, at most 9 times.
fn read_all<S: Source>(alloc: Global, source: &mut S) -> Result<(Vec<u8>, u8), Fail> {
    let mut bytes = Vec::new(alloc);
    let mut failed = 0u8;
    for _ in 0..9 {
        let mut piece = [0u8; 3];
        match source.read(&mut piece) {
            Ok(0) => break,
            Ok(count) => bytes.extend_from_slice(&piece[..count])?,
            Err(ReadFailed) => failed = failed.saturating_add(1),
        }
    }
    Ok((bytes, failed))
}

// Writes each piece, and answers what each call answered: how many bytes it took, 100 for a fault,
// 101 for want of memory.
fn write_each<K: Sink>(alloc: Global, sink: &mut K, pieces: &[&[u8]]) -> Result<Vec<usize>, Fail> {
    let mut answers = Vec::new(alloc);
    for piece in pieces {
        answers.push(match sink.write(piece) {
            Ok(count) => count,
            Err(SinkError::Failed) => 100,
            Err(SinkError::NoMemory) => 101,
        })?;
    }
    Ok(answers)
}

fn list_of<F: Folder>(
    alloc: Global,
    folder: &mut F,
    path: &str,
) -> Result<Vec<String>, FolderError> {
    folder.list(alloc, path)
}

fn content_of<F: Folder>(
    alloc: Global,
    folder: &mut F,
    path: &str,
    name: &str,
    limit: usize,
) -> Result<Vec<u8>, FolderError>
    requires { limit ≤ MAX_LIMIT }
{
    folder.read(alloc, path, name, limit)
}

fn expect_names(rt: &impl Abort, names: &[String], wanted: &[&str]) {
    assert!(rt;
        names
            .iter()
            .map(|name| name.as_str())
            .eq(wanted.iter().copied())
    );
}

// A writer that takes at most 2 bytes of a piece. Its second call fails, its third takes nothing.
#[derive(Drop)]
struct SlowWriter {
    bytes: Vec<u8>,
    calls: u8,
}

impl Write for SlowWriter {
    fn write(&mut self, bytes: &[u8]) -> IoResult<usize> {
        let call = self.calls;
        self.calls = call.saturating_add(1);
        match call {
            1 => Err(Error::from(ErrorKind::BrokenPipe)),
            2 => Ok(0),
            _ => {
                let count = bytes.len().min(2);
                self.bytes.extend_from_slice(&bytes[..count])?;
                Ok(count)
            }
        }
    }

    fn flush(&mut self) -> IoResult<()> {
        Ok(())
    }
}

#[test]
fn a_real_sink(rt: HostRuntime) -> Result<(), Fail> {
    let alloc = rt.alloc();
    let pieces: [&[u8]; 4] = [b"abc", b"d", b"e", b"f"];
    let mut sink = RealSink::new(SlowWriter {
        bytes: Vec::new(alloc),
        calls: 0,
    });
    let answers = write_each(alloc, &mut sink, &pieces)?;
    assert_eq!(rt; answers.as_slice(), [2, 100, 100, 1].as_slice());

    let mut file = RealSink::new(fs::create(&rt, "written")?);
    let answers = write_each(alloc, &mut file, &pieces)?;
    assert_eq!(rt; answers.as_slice(), [3, 1, 1, 1].as_slice());
    assert_eq!(rt; fs::read(&rt, "written")?.as_slice(), b"abcdef".as_slice());

    // What a writer of std keeps back is out after each call.
    let mut buffered = RealSink::new(BufWriter::new(alloc, fs::create(&rt, "buffered")?)?);
    let answers = write_each(alloc, &mut buffered, &pieces)?;
    assert_eq!(rt; answers.as_slice(), [3, 1, 1, 1].as_slice());
    assert_eq!(rt; fs::read(&rt, "buffered")?.as_slice(), b"abcdef".as_slice());
    Ok(())
}

#[test]
fn a_real_source(rt: HostRuntime) -> Result<(), Fail> {
    let alloc = rt.alloc();
    fs::write(&rt, "query", "at 3 4")?;
    let mut file = RealSource::new(fs::open(&rt, "query")?);
    let (bytes, failed) = read_all(alloc, &mut file)?;
    assert_eq!(rt; bytes.as_slice(), b"at 3 4".as_slice());
    assert_eq!(rt; failed, 0);

    // A directory can be opened, and each read of it fails.
    fs::create_dir_all(&rt, "directory")?;
    let mut directory = RealSource::new(fs::open(&rt, "directory")?);
    let (bytes, failed) = read_all(alloc, &mut directory)?;
    assert_eq!(rt; bytes.as_slice(), b"".as_slice());
    assert_eq!(rt; failed, 9);
    Ok(())
}

#[test]
fn a_real_folder(rt: HostRuntime) -> Result<(), Fail> {
    let alloc = rt.alloc();
    fs::create_dir_all(&rt, "d/x.sgf")?;
    fs::write(&rt, "d/b.sgf", "(;B[aa])")?;
    fs::write(&rt, "d/a.sgf", "(;)")?;
    fs::write(&rt, "d/.sgf", "")?;
    fs::write(&rt, "d/notes.txt", "notes")?;
    fs::write(&rt, "d/x.SGF", "(;)")?;
    let mut folder = RealFolder::new(rt.clone()?);

    expect_names(
        &rt,
        list_of(alloc, &mut folder, "d").ok().ok_or("d")?.as_slice(),
        &[".sgf", "a.sgf", "b.sgf", "x.sgf"],
    );
    assert!(rt; list_of(alloc, &mut folder, "f").err() == Some(FolderError::Failed));

    let cases: [(&str, usize, &[u8]); 5] = [
        ("b.sgf", 9, b"(;B[aa])"),
        ("b.sgf", 7, b"(;B[aa])"),
        ("b.sgf", 6, b"(;B[aa]"),
        ("b.sgf", 0, b"("),
        (".sgf", 3, b""),
    ];
    for (name, limit, wanted) in cases {
        if limit <= MAX_LIMIT {
            assert_eq!(rt;
                content_of(alloc, &mut folder, "d", name, limit)
                    .ok()
                    .ok_or("read")?
                    .as_slice(),
                wanted
            );
        }
    }
    assert!(rt; content_of(alloc, &mut folder, "d", "x.sgf", 3).err() == Some(FolderError::Failed));
    assert!(rt; content_of(alloc, &mut folder, "d", "c.sgf", 3).err() == Some(FolderError::Failed));
    Ok(())
}

// A system with one directory, whose names are these bytes, each ended by a NUL.
#[derive(Clone, Drop)]
struct OneDirectory {
    alloc: Global,
    names: Vec<u8>,
}

#[derive(Drop)]
struct DirectoryNames {
    left: MemorySource,
}

impl Read for DirectoryNames {
    fn read(&mut self, into: &mut [u8]) -> IoResult<usize> {
        match self.left.read(into) {
            Ok(count) => Ok(count),
            Err(ReadFailed) => Err(Error::from(ErrorKind::Other)),
        }
    }
}

impl Alloc for OneDirectory {
    type A = Global;

    fn alloc(&self) -> Global {
        self.alloc
    }
}

impl Files for OneDirectory {
    type File = File;

    type Dir = DirectoryNames;

    fn open_file(&self, _how: &OpenOptions, _path: &str) -> IoResult<File> {
        Err(Error::from(ErrorKind::OutOfMemory))
    }

    fn open_dir(&self, _path: &str) -> IoResult<DirectoryNames> {
        Ok(DirectoryNames {
            left: MemorySource::new(self.names.clone()?, Vec::new(self.alloc)),
        })
    }

    fn metadata(&self, _path: &str) -> IoResult<Metadata> {
        Err(Error::from(ErrorKind::Unsupported))
    }

    fn symlink_metadata(&self, _path: &str) -> IoResult<Metadata> {
        Err(Error::from(ErrorKind::Unsupported))
    }

    fn copy(&self, _from: &str, _to: &str) -> IoResult<u64> {
        Err(Error::from(ErrorKind::Unsupported))
    }

    fn rename(&self, _from: &str, _to: &str) -> IoResult<()> {
        Err(Error::from(ErrorKind::Unsupported))
    }

    fn remove_file(&self, _path: &str) -> IoResult<()> {
        Err(Error::from(ErrorKind::Unsupported))
    }

    fn create_dir(&self, _path: &str) -> IoResult<()> {
        Err(Error::from(ErrorKind::Unsupported))
    }

    fn remove_dir(&self, _path: &str) -> IoResult<()> {
        Err(Error::from(ErrorKind::Unsupported))
    }

    fn remove_dir_all<B: Allocator>(&self, _alloc: B, _path: &str) -> IoResult<()> {
        Err(Error::from(ErrorKind::Unsupported))
    }
}

#[test]
fn names_that_are_not_utf8(rt: HostRuntime) -> Result<(), Fail> {
    let alloc = rt.alloc();
    let cases: [(&[u8], bool); 3] = [
        (b"a.sgf\0.\0notes.txt\0..\0", true),
        (b"a.sgf\0\xff.sgf\0", false),
        (b"a.sgf\0\xff\xfe\0", false),
    ];
    for (names, is_listed) in cases {
        let mut folder = RealFolder::new(OneDirectory {
            alloc,
            names: names.to_vec(alloc)?,
        });
        match list_of(alloc, &mut folder, "d") {
            Ok(names) => {
                assert!(rt; is_listed);
                expect_names(&rt, names.as_slice(), &["a.sgf"]);
            }
            Err(error) => {
                assert!(rt; !is_listed);
                assert_eq!(rt; error, FolderError::Failed);
            }
        }
        assert!(rt;
            content_of(alloc, &mut folder, "d", "a.sgf", 3).err() == Some(FolderError::NoMemory)
        );
    }
    Ok(())
}
