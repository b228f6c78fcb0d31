//! A second reader of a journal's bytes, written from docs/FORMATS.md, that shares no code with the first.

/// What bytes are as a journal.
#[derive(Clone, Copy, Debug, PartialEq, Eq)]
pub enum Book {
    /// So many records, whose numbers and bytes have this sum in their order.
    Whole { records: usize, sum: u64 },
    /// Records up to the gate at this place, which begins none.
    Damaged { place: u64 },
}

/// A sum that tells each number and its place among the others.
pub fn summed(sum: u64, number: u64) -> u64 {
    sum.wrapping_mul(0x0100_0000_01b3) ^ number
}

/// Bytes that are still to be read, and the sum of the numbers that were.
#[derive(Drop)]
struct Reader<'a> {
    left: &'a [u8],
    sum: u64,
}

impl<'a> Reader<'a> {
    fn bytes(&mut self, count: usize) -> Option<&'a [u8]> {
        if self.left.len() < count {
            return None;
        }
        let front = &self.left[..count];
        self.left = &self.left[count..];
        Some(front)
    }

    /// A number of so many bytes, the greatest part first.
    fn plain(&mut self, count: usize) -> Option<u64> {
        let mut number = 0u64;
        for byte in self.bytes(count)? {
            number = number << 8 | u64::from(*byte);
        }
        Some(number)
    }

    fn number(&mut self, count: usize) -> Option<u64> {
        let number = self.plain(count)?;
        self.sum = summed(self.sum, number);
        Some(number)
    }

    /// A length of so many bytes, from one number to another, and the bytes.
    fn text(&mut self, count: usize, least: u64, most: u64) -> Option<()> {
        let length = self.number(count)?;
        if length < least || length > most {
            return None;
        }
        for byte in self.bytes(length as usize)? {
            self.sum = summed(self.sum, u64::from(*byte));
        }
        Some(())
    }

    /// A byte that is one of these.
    fn one_of(&mut self, allowed: &[u64]) -> Option<u64> {
        let number = self.number(1)?;
        if allowed.contains(&number) {
            Some(number)
        } else {
            None
        }
    }

    fn log(&mut self) -> Option<()> {
        let count = self.number(1)?;
        if count > 25 {
            return None;
        }
        for _ in 0..count {
            self.number(8)?;
            self.number(8)?;
        }
        Some(())
    }

    fn document(&mut self) -> Option<()> {
        self.number(8)?;
        self.number(8)?;
        self.number(4)?;
        self.number(4)?;
        self.number(1)?;
        self.text(4, 0, 20_971_520)
    }

    /// A change, and its seqno.
    fn change(&mut self) -> Option<u64> {
        let seqno = self.number(8)?;
        let act = self.one_of(&[1, 2, 3, 4, 5])?;
        self.text(1, 1, 250)?;
        match act {
            1 => self.document()?,
            2 => {
                self.number(8)?;
                self.number(8)?;
            }
            3 => {
                self.one_of(&[1, 2, 3])?;
                self.one_of(&[0, 1])?;
                self.document()?;
            }
            4 => {
                self.number(8)?;
                self.one_of(&[0, 1])?;
                self.document()?;
            }
            _ => {
                self.number(8)?;
            }
        }
        Some(seqno)
    }

    fn batch(&mut self) -> Option<()> {
        for _ in 0..4 {
            self.number(8)?;
        }
        self.log()?;
        let mut last = None;
        for _ in 0..self.number(4)? {
            let seqno = self.change()?;
            if last.is_some_and(|before| before >= seqno) {
                return None;
            }
            last = Some(seqno);
        }
        Some(())
    }

    fn payload(&mut self) -> Option<()> {
        self.one_of(&[1])?;
        match self.one_of(&[1, 2, 3])? {
            1 => {
                self.one_of(&[1, 2, 4])?;
                self.log()?;
            }
            2 => self.batch()?,
            _ => {
                self.number(8)?;
            }
        }
        if self.left.is_empty() { Some(()) } else { None }
    }
}

/// The sum with the record behind an open gate, the length of its payload, and what stands behind it.
fn record(behind: &[u8], sum: u64) -> Option<(u64, u64, &[u8])> {
    let mut reader = Reader { left: behind, sum };
    let length = reader.plain(4)?;
    if length > 33_599_999 {
        return None;
    }
    let payload = reader.bytes(length as usize)?;
    let rest = reader.left;
    reader.left = payload;
    reader.payload()?;
    Some((reader.sum, length, rest))
}

/// What these bytes are as a journal.
pub fn judge(bytes: &[u8]) -> Book {
    let mut left = bytes;
    let mut place = 0u64;
    let mut records = 0usize;
    let mut sum = 0;
    for _ in 0..bytes.len() {
        if left.is_empty() {
            break;
        }
        if left[0] != 1 {
            return Book::Whole { records, sum };
        }
        let Some((more, length, rest)) = record(&left[1..], sum) else {
            break;
        };
        sum = more;
        left = rest;
        place = place.saturating_add(5).saturating_add(length);
        records = records.saturating_add(1);
    }
    Book::Damaged { place }
}
