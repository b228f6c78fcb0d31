//! A file that notes what it is asked.
ghost use Rattle.std.specs.Prelude.{◌≡◌, None, [], true, false, IfOk, IfSome, IsErr};
ghost use Rattle.file_disk.specs.Files.{Called};
ghost use Rattle.file_disk.specs.Noting.{ask_of, noting_log};

use crate::RawFile;
use std::alloc::{AllocError, Global};
use std::io;
use std::marker::Model;

/// What a call asked.
#[derive(Clone, Copy, Debug, PartialEq, Eq)]
pub enum What {
    Read,
    Write,
    Cut,
    Sync,
}

/// A call of a file.
#[derive(Drop)]
pub struct Noted {
    what: What,
    at: u64,
    bytes: Vec<u8>,
    done: bool,
}

impl Model for Noted {
    ghost use Rattle.file_disk.specs.Files.{FileCall};
    ghost use Rattle.file_disk.specs.Noting.{ask_of};

    ghost Value = { FileCall };

    ghost view = { λ n. record { ask = ask_of n.what n.at n.bytes.items; done = n.done } };
}

impl Noted {
    /// What was asked.
    pub fn what(&self) -> What {
        self.what
    }

    /// The place of a read or a write, or the length of a cut.
    pub fn at(&self) -> u64 {
        self.at
    }

    /// What was written, or what the room of a read held then.
    pub fn bytes(&self) -> &[u8] {
        &self.bytes
    }

    /// Whether it was done.
    pub fn done(&self) -> bool
        ensures { result ≡ self.now.done }
    {
        self.done
    }
}

/// A file around another one: it notes its calls and passes them on. The calls whose numbers are
/// listed, from 1 on, are not passed on, and fail.
#[derive(Drop)]
pub struct Noting<F: RawFile> {
    alloc: Global,
    file: F,
    fail: Vec<u64>,
    calls: u64,
    noted: Vec<Noted>,
    /// Whether memory was short for a note.
    full: bool,
}

impl<F: RawFile> Model for Noting<F> {
    ghost use Rattle.file_disk.specs.Noting.{NotingFile};

    ghost Value = { NotingFile };

    ghost view = { λ f. record { noted = f.noted.items; full = f.full } };
}

impl<F: RawFile + Drop> Noting<F> {
    /// It noted nothing yet. An error is want of memory.
    pub fn new(alloc: Global, file: F, fail: &[u64]) -> Result<Noting<F>, AllocError>
        ensures { IfOk result (λ f. f ≡ record { noted = []; full = false }) }
    {
        Ok(Noting {
            alloc,
            file,
            fail: fail.to_vec(alloc)?,
            calls: 0,
            noted: Vec::new(alloc),
            full: false,
        })
    }

    /// The calls that it noted, in their order: all, or none where memory was short.
    pub fn noted(&self) -> Option<&[Noted]>
        ensures none { result ≡ None → self.now.full ≡ true }
        ensures some { IfSome result (λ calls. (self.now.full ≡ false) × (calls.now ≡ self.now.noted)) }
    {
        if self.full {
            return None;
        }
        Some(&self.noted)
    }

    /// Counts a call: whether it is one that fails.
    fn count(&mut self) -> bool
        ensures { self.new ≡ self.old }
    {
        self.calls = self.calls.saturating_add(1);
        self.fail.contains(&self.calls)
    }

    /// Notes a call.
    fn note(&mut self, what: What, at: u64, bytes: &[u8], done: bool)
        ensures { Called (ask_of what at bytes.now) done (noting_log self.old) (noting_log self.new) }
    {
        if self.full {
            return;
        }
        match bytes.to_vec(self.alloc) {
            Ok(bytes) => {
                let call = Noted {
                    what,
                    at,
                    bytes,
                    done,
                };
                self.full = self.noted.push(call).is_err();
            }
            Err(_) => self.full = true,
        }
    }
}

/// How a call fails that was chosen to.
fn chosen() -> io::Result<()>
    ensures { IsErr result }
{
    Err(io::ErrorKind::Other.into())
}

impl<F: RawFile + Drop> RawFile for Noting<F> {
    ghost log = { noting_log };

    fn read_whole(&mut self, at: u64, room: &mut [u8]) -> io::Result<()> {
        let done = if self.count() {
            chosen()
        } else {
            self.file.read_whole(at, room)
        };
        self.note(What::Read, at, room, done.is_ok());
        done
    }

    fn write_whole(&mut self, at: u64, bytes: &[u8]) -> io::Result<()> {
        let done = if self.count() {
            chosen()
        } else {
            self.file.write_whole(at, bytes)
        };
        self.note(What::Write, at, bytes, done.is_ok());
        done
    }

    fn cut_to(&mut self, len: u64) -> io::Result<()> {
        let done = if self.count() {
            chosen()
        } else {
            self.file.cut_to(len)
        };
        self.note(What::Cut, len, &[], done.is_ok());
        done
    }

    fn sync_all_bytes(&mut self) -> io::Result<()> {
        let done = if self.count() {
            chosen()
        } else {
            self.file.sync_all_bytes()
        };
        self.note(What::Sync, 0, &[], done.is_ok());
        done
    }
}
