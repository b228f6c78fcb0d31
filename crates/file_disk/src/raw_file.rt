//! What a disk asks of its file.
ghost use Rattle.std.specs.Prelude.{Option, List, true, false, OnOk, OnErr};
ghost use Rattle.file_disk.specs.Files.{FileAsk, FileCall, Called};

use std::fs::File;
use std::io;
use std::os::unix::fs::FileExt;

/// A file that is asked for whole calls: each does all that it is asked, or fails.
pub trait RawFile {
    /// What it was asked so far, where it tells that.
    ghost log: { Self → Option (List FileCall) };

    /// Fills the room with the bytes at that place.
    fn read_whole(&mut self, at: u64, room: &mut [u8]) -> io::Result<()>
        ensures ok { OnOk result (Called (FileAsk.AskedRead at room.new) true (log self.old) (log self.new)) }
        ensures err { OnErr result (Called (FileAsk.AskedRead at room.new) false (log self.old) (log self.new)) };

    /// Writes all the bytes over those at that place, and past the end.
    fn write_whole(&mut self, at: u64, bytes: &[u8]) -> io::Result<()>
        ensures ok { OnOk result (Called (FileAsk.AskedWrite at bytes.now) true (log self.old) (log self.new)) }
        ensures err { OnErr result (Called (FileAsk.AskedWrite at bytes.now) false (log self.old) (log self.new)) };

    /// Makes it that long.
    fn cut_to(&mut self, len: u64) -> io::Result<()>
        ensures ok { OnOk result (Called (FileAsk.AskedCut len) true (log self.old) (log self.new)) }
        ensures err { OnErr result (Called (FileAsk.AskedCut len) false (log self.old) (log self.new)) };

    /// Makes all that was written outlast a crash, and its length.
    fn sync_all_bytes(&mut self) -> io::Result<()>
        ensures ok { OnOk result (Called FileAsk.AskedSync true (log self.old) (log self.new)) }
        ensures err { OnErr result (Called FileAsk.AskedSync false (log self.old) (log self.new)) };
}

/// A file of the system tells nothing. It tries again where a signal came in between.
impl RawFile for File {
    ghost use Rattle.std.specs.Prelude.{None};

    ghost log = { λ f. None };

    fn read_whole(&mut self, at: u64, room: &mut [u8]) -> io::Result<()> {
        self.read_exact_at(room, at)
    }

    fn write_whole(&mut self, at: u64, bytes: &[u8]) -> io::Result<()> {
        self.write_all_at(bytes, at)
    }

    fn cut_to(&mut self, len: u64) -> io::Result<()> {
        self.set_len(len)
    }

    fn sync_all_bytes(&mut self) -> io::Result<()> {
        self.sync_data()
    }
}
