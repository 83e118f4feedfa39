//! What is asked of the system for files.

// Files that are named by paths: the length of a regular file, and its bytes from a place on.
ghost use Rattle.std.specs.Prelude.{◌≡◌, ◌≤◌, ◌↔◌, ℕ, List, length, None, IfOk, IsOk};
ghost use Rattle.std.specs.declared.option.Option.{Option};
ghost use Rattle.std.specs.Fs.{IsFile, file_type, metadata_len};
ghost use Rattle.outside.specs.Outside.{HasFileLength, IsReadFrom, ReadAt};
ghost use Rattle.outside.specs.Host.{CountsFile, Has, HasTold};

use std::fs::Metadata;
use std::io::{ErrorKind, Read, Seek, SeekFrom};
use std::{fs, io};

/// A system of files that are named by paths.
pub trait FileSystem {
    /// A file that is open for reading.
    type File: Read + Seek + Drop;

    /// The bytes of the regular file at each path, where they are told.
    ghost told: { Self → List ℕ → Option (List ℕ) };

    /// What the system knows of the file at a path.
    fn metadata(&self, path: &str) -> io::Result<Metadata>
        ensures { IfOk result (CountsFile (told self.now path.now)) };

    /// Opens the file at a path.
    fn open(&self, path: &str) -> io::Result<Self::File>
        ensures { IfOk result (HasTold Self.File.stream_position Self.File.stream_bytes
            Self.File.remaining (told self.now path.now)) };
}

// The file system of std, which tells nothing.
impl<S: std::rt::Files> FileSystem for S {
    type File = S::File;

    ghost told = { λ _ _. None };

    fn metadata(&self, path: &str) -> io::Result<Metadata> {
        fs::metadata(self, path)
    }

    fn open(&self, path: &str) -> io::Result<S::File> {
        fs::open(self, path)
    }
}

/// The length of a regular file. A folder, a pipe and a device have none, whatever their metadata says.
fn regular_length(metadata: &Metadata) -> io::Result<u64>
    ensures regular { IsOk result ↔ IsFile (file_type metadata.now) }
    ensures length { IfOk result (λ n. n ≡ metadata_len metadata.now) }
{
    if metadata.is_file() {
        Ok(metadata.len())
    } else {
        Err(ErrorKind::InvalidInput.into())
    }
}

/// The length of the regular file at a path.
pub fn length_of<S: FileSystem>(system: &S, path: &str) -> io::Result<u64>
    ensures { IfOk result (HasFileLength (S.told system.now path.now)) }
{
    let metadata = system.metadata(path)?;
    regular_length(&metadata)
}

/// Reads an open file's bytes from a place on.
fn read_from<F: Read + Seek>(file: &mut F, place: u64, piece: &mut [u8]) -> io::Result<usize>
    ensures bound { IfOk result (λ n. n ≤ length piece.new) }
    ensures read { IfOk result (λ n. (bytes : List ℕ)
        → Has F.stream_position F.stream_bytes F.remaining bytes file.old
        → IsReadFrom bytes place n piece.new) }
{
    file.seek(SeekFrom::Start(place))?;
    file.read(piece)
}

/// Reads the bytes of the file at a path from a place on.
pub fn read_at<S: FileSystem>(
    system: &S,
    path: &str,
    place: u64,
    piece: &mut [u8],
) -> io::Result<usize>
    ensures bound { IfOk result (λ n. n ≤ length piece.new) }
    ensures read { IfOk result (λ n. ReadAt (S.told system.now path.now) place n piece.new) }
{
    let mut file = system.open(path)?;
    read_from(&mut file, place, piece)
}
