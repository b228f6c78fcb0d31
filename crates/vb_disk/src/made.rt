//! What was done to a disk in memory, and what a crash makes of it.
ghost use Rattle.std.specs.Prelude.{◌≡◌, ◌+◌, ◌≤◌, length, reverse, vec_len, vec_capacity};
ghost use Rattle.vb_disk.specs.{Disks.{written}, Memory.{CanBe, EachRan, AreBlursOf, IsBlurOf, after, blurred, content, is_sync, synced}};

/// One thing that was done to it. All of them in a row say what a crash may leave, at each moment.
#[derive(Drop)]
pub enum Made {
    /// Bytes were written at a place.
    Wrote { at: u64, bytes: Vec<u8> },
    /// All behind that length was cut off.
    Cut { len: u64 },
    /// In a crash all behind that length became this byte.
    Blurred { len: u64, byte: u8 },
    /// What was there was made to outlast a crash.
    Synced,
}

/// Writes bytes over those at a place, and past the end, in memory that is there.
pub fn overwrite(held: &mut Vec<u8>, at: usize, bytes: &[u8])
    requires within { at ≤ vec_len held.old }
    requires room { at + length bytes.now ≤ vec_capacity held.old }
    ensures items { held.new.items ≡ written at bytes.now held.old.items }
    ensures capacity { vec_capacity held.old ≤ vec_capacity held.new }
{
    let over = bytes.len().min(held.len() - at);
    held[at..at + over].copy_from_slice(&bytes[..over]);
    let appended: Result<_, _> = held.extend_from_slice(&bytes[over..]);
    appended.unwrap();
}

/// Makes all behind the first `len` bytes this byte.
fn blur(bytes: &mut Vec<u8>, len: u64, byte: u8)
    ensures items { bytes.new.items ≡ blurred len byte bytes.old.items }
    ensures capacity { vec_capacity bytes.old ≤ vec_capacity bytes.new }
{
    let len = (len as usize).min(bytes.len());
    bytes[len..].fill(byte);
}

impl Made {
    /// Whether it is a sync.
    fn is_sync(&self) -> bool
        ensures { result ≡ is_sync self.now }
    {
        match self {
            Made::Synced => true,
            Made::Wrote { .. } | Made::Cut { .. } | Made::Blurred { .. } => false,
        }
    }

    /// Does it once more, in memory that is there.
    fn redo(&self, bytes: &mut Vec<u8>)
        requires { CanBe (vec_capacity bytes.old) self.now bytes.old.items }
        ensures items { bytes.new.items ≡ after self.now bytes.old.items }
        ensures capacity { vec_capacity bytes.old ≤ vec_capacity bytes.new }
    {
        match self {
            Made::Wrote { at, bytes: wrote } => overwrite(bytes, *at as usize, wrote),
            Made::Cut { len } => bytes.truncate(*len as usize),
            Made::Blurred { len, byte } => blur(bytes, *len, *byte),
            Made::Synced => {}
        }
    }

    /// The same, with one byte all over.
    fn blurred(self, byte: u8) -> Made
        ensures { IsBlurOf byte self result }
    {
        match self {
            Made::Wrote { at, mut bytes } => {
                bytes.fill(byte);
                Made::Wrote { at, bytes }
            }
            Made::Cut { len } | Made::Blurred { len, .. } => Made::Blurred { len, byte },
            Made::Synced => Made::Synced,
        }
    }
}

/// Makes the bytes anew, by all that was done.
pub fn replay(past: &[Made], bytes: &mut Vec<u8>)
    requires { EachRan (vec_capacity bytes.old) (reverse past.now) }
    ensures items { bytes.new.items ≡ content (reverse past.now) }
    ensures capacity { vec_capacity bytes.old ≤ vec_capacity bytes.new }
{
    bytes.clear();
    bytes.push_reserved(0);
    for made in past {
        made.redo(bytes);
    }
}

/// Forgets what was done since the last sync.
pub fn forget_pending(past: &mut Vec<Made>)
    ensures items { reverse past.new.items ≡ synced (reverse past.old.items) }
    ensures capacity { vec_capacity past.new ≡ vec_capacity past.old }
{
    match past.pop() {
        None => {}
        Some(made) => {
            if made.is_sync() {
                past.push_reserved(made);
            } else {
                forget_pending(past);
            }
        }
    }
}

/// Puts one byte all over what was done since the last sync.
pub fn blur_pending(past: &mut Vec<Made>, byte: u8)
    ensures items { AreBlursOf byte (reverse past.old.items) (reverse past.new.items) }
    ensures capacity { vec_capacity past.new ≡ vec_capacity past.old }
    ensures len { vec_len past.new ≡ vec_len past.old }
{
    match past.pop() {
        None => {}
        Some(made) => {
            if made.is_sync() {
                past.push_reserved(made);
            } else {
                blur_pending(past, byte);
                past.push_reserved(made.blurred(byte));
            }
        }
    }
}

/// What a crash leaves of all that was written or cut off since the last sync.
#[derive(Clone, Copy, Debug, PartialEq, Eq)]
pub enum Outcome {
    /// Nothing of it.
    Old,
    /// All of it.
    New,
    /// This byte all over its ranges, as far as the disk ever reached since.
    Fill(u8),
}
