//! Where the documents of those who come are read from.

ghost use Rattle.std.specs.Prelude.{ℕ, List, Result, Ok, Err, IfOk, IfErr};
ghost use Rattle.std.specs.IoError.{error_kind};
ghost use Rattle.std.specs.declared.io.ErrorKind.{ErrorKind};

use crate::desk::AdminDesk;
use std::alloc::Global;
use std::io::{ErrorKind, Read};
use std::rt::Files;
use std::sync::Wait;
use std::{fs, io};

/// Reads the documents of those who come.
pub trait Documents {
    // What is at this path was read, and had these bytes, or that failed for a reason of this kind.
    ghost reads: { List ℕ → Result (List ℕ) ErrorKind → Type 0 };

    /// The bytes of the file at this path.
    fn read_document(&self, alloc: Global, path: &str) -> io::Result<Vec<u8>>
        ensures bytes { IfOk result (λ bytes. reads path.now (Ok bytes.items)) }
        ensures failure { IfErr result (λ error. reads path.now (Err (error_kind error))) };
}

impl<R: Files> Documents for R {
    ghost use Rattle.service_runtime.specs.Documents.{IsOfFile};

    // The library says neither which file a path opens nor why a call failed.
    ghost reads = { λ _ outcome. IsOfFile R.File.remaining outcome };

    fn read_document(&self, alloc: Global, path: &str) -> io::Result<Vec<u8>> {
        let mut file = fs::open(self, path)?;
        let mut bytes = Vec::new(alloc);
        file.read_to_end(&mut bytes)?;
        Ok(bytes)
    }
}

/// The documents that come over a desk, each with its line.
#[derive(Drop)]
pub struct DeskDocuments<'d, R> {
    pub rt: &'d R,
    pub desk: &'d AdminDesk,
}

impl<R: Wait> Documents for DeskDocuments<'_, R> {
    // Nobody knows what is handed in.
    ghost reads = { λ _ _. Unit {0} };

    /// Not found where none came, or it was read before.
    fn read_document(&self, _alloc: Global, _path: &str) -> io::Result<Vec<u8>> {
        match self.desk.document(self.rt) {
            Some(document) => Ok(document),
            None => Err(io::Error::from(ErrorKind::NotFound)),
        }
    }
}
