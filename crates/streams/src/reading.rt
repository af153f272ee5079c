//! Files and inputs that are read to their end.
ghost use Rattle.std.specs.Prelude.{◌≡◌, ◌≢◌, IfOk, IfSome, codes};
ghost use Rattle.streams.specs.Reasons.{unread_by};

use std::alloc::Global;
use std::fs::Files;
use std::io::{ErrorKind, Read};
use std::{fs, io};

/// Why a file or an input can't be opened or read to its end, as the system tells it.
#[derive(Clone, Copy, Debug)]
pub enum Unreadable {
    /// There is no such file.
    Missing,
    /// It may not be read.
    Denied,
    /// It is a folder.
    Folder,
    /// A part of its path is no folder.
    NoFolder,
    /// Another reason.
    Other,
}

impl Unreadable {
    ghost use Rattle.std.specs.Prelude.{◌≡◌};
    ghost use Rattle.streams.specs.Reasons.{reason_text};

    /// The reason in words.
    pub fn text(self) -> &'static str
        ensures { result.now ≡ reason_text self }
    {
        match self {
            Unreadable::Missing => "there is no such file",
            Unreadable::Denied => "it may not be read",
            Unreadable::Folder => "it is a folder",
            Unreadable::NoFolder => "a part of its path is no folder",
            Unreadable::Other => "the system refuses it",
        }
    }
}

/// Why a file or an input wasn't read.
#[derive(Clone, Copy, Debug)]
pub enum Unread {
    /// Memory was refused.
    Memory,
    /// It can't be opened or read to its end.
    File(Unreadable),
}

/// The fault of a file or an input that wasn't read, by the kind of its error.
fn fault_of(kind: ErrorKind) -> Unread
    ensures { result ≡ unread_by kind }
{
    match kind {
        ErrorKind::OutOfMemory => Unread::Memory,
        ErrorKind::NotFound => Unread::File(Unreadable::Missing),
        ErrorKind::PermissionDenied => Unread::File(Unreadable::Denied),
        ErrorKind::IsADirectory => Unread::File(Unreadable::Folder),
        ErrorKind::NotADirectory => Unread::File(Unreadable::NoFolder),
        _ => Unread::File(Unreadable::Other),
    }
}

/// Reads a file. The errors: `Memory` where memory was refused, `File` where the file can't be opened
/// or read to its end.
pub fn load<R: Files + AllocGlobal>(rt: &R, path: &str) -> Result<Vec<u8>, Unread> {
    match fs::read(rt, path) {
        Ok(bytes) => Ok(bytes),
        Err(error) => Err(fault_of(error.kind())),
    }
}

/// Reads what is left of an input, as of standard input. The errors: `Memory` where memory was refused,
/// `File` where it can't be read to its end.
pub fn load_input<I: Read>(alloc: Global, input: &mut I) -> Result<Vec<u8>, Unread>
    ensures { IfOk result (λ bytes. IfSome (I.remaining input.old) (λ left. bytes.items ≡ left)) }
{
    let mut bytes = Vec::new(alloc);
    match input.read_to_end(&mut bytes) {
        Ok(_) => Ok(bytes),
        Err(error) => Err(fault_of(error.kind())),
    }
}

/// Reads the file at a path; where that is `-`, what is left of the input. The errors: `Memory` where memory
/// was refused, `File` where it can't be opened or read to its end.
pub fn read_path<R: Files + AllocGlobal, I: Read>(
    rt: &R,
    input: &mut I,
    path: &str,
) -> Result<Vec<u8>, Unread>
    ensures input { path.now ≡ codes "-"
        → IfOk result (λ bytes. IfSome (I.remaining input.old) (λ left. bytes.items ≡ left)) }
    ensures file { path.now ≢ codes "-" → input.new ≡ input.old }
{
    if path == "-" {
        return load_input(rt.alloc(), input);
    }
    load(rt, path)
}
