// 16-bit words, low byte first, of which a list of answers is made. Every read is total, so a damaged list can only disagree.
ghost use Rattle.std.specs.Prelude.{◌≤◌, length};
ghost use Rattle.std.specs.Iterator.{at_most};

use crate::answer::Difference;
use std::alloc::{AllocError, AllocFailed, Global};

// Why an answer does not agree, or why that cannot be said.
#[derive(Clone, Copy)]
pub(crate) enum Fault {
    Differs(Difference),
    // The running number of a case that is longer than this program allows.
    NoRoom(u32),
    NotWhole,
    NoMemory,
}

impl From<AllocError> for Fault {
    fn from(_: AllocError) -> Self {
        Fault::NoMemory
    }
}

impl From<AllocFailed<i32>> for Fault {
    fn from(_: AllocFailed<i32>) -> Self {
        Fault::NoMemory
    }
}

// The records of a list, one after the other: the first word of each is its length. One that is not whole is all that is left.
#[derive(Drop)]
pub(crate) struct Records<'a>(pub(crate) &'a [u8]);

impl<'a> Iterator for Records<'a> {
    type Item = &'a [u8];

    ghost remaining = { λ s. at_most (length s.0.now) };

    fn next(&mut self) -> Option<&'a [u8]> {
        let bytes = self.0;
        if bytes.is_empty() {
            return None;
        }
        let length = Words(bytes).length() * 2;
        match bytes.split_at_checked(length) {
            Some((record, others)) if 0 < length => {
                self.0 = others;
                Some(record)
            }
            _ => {
                self.0 = &[];
                Some(bytes)
            }
        }
    }
}

// How much of an input a record has, and how long the input is: the rest is the same in all records.
#[derive(Clone, Copy)]
pub(crate) struct Input {
    pub(crate) given: usize,
    pub(crate) length: usize,
}

// What is left of a record.
#[derive(Drop)]
pub(crate) struct Words<'a>(pub(crate) &'a [u8]);

impl<'a> Words<'a> {
    // 0 behind the record's end.
    fn next(&mut self) -> u16 {
        let Some((word, others)) = self.0.split_first_chunk() else {
            return 0;
        };
        self.0 = others;
        u16::from_le_bytes(*word)
    }

    // So many bytes, or all that are left.
    fn next_bytes(&mut self, count: usize) -> &'a [u8] {
        let (bytes, others) = self.0.split_at(count.min(self.0.len()));
        self.0 = others;
        bytes
    }

    pub(crate) fn number(&mut self) -> u32 {
        u32::from(self.next())
    }

    pub(crate) fn length(&mut self) -> usize
        ensures { result ≤ 65535 }
    {
        usize::from(self.next())
    }

    // Two words, the low one first.
    pub(crate) fn long(&mut self) -> u32 {
        let low = self.number();
        let high = self.number();
        high << 16 | low
    }

    // A node number: one word, or the least one and two words.
    fn node(&mut self) -> i32 {
        match self.next().cast_signed() {
            i16::MIN => self.long().cast_signed(),
            n => i32::from(n),
        }
    }

    // Those that are not given are of lines 5, 0, 0, 0. Of more than there are in all the rest is not read.
    pub(crate) fn nodes(&mut self, alloc: Global, input: Input) -> Result<Vec<i32>, Fault> {
        let mut nodes = Vec::with_capacity(alloc, input.length)?;
        for _ in 0..input.given.min(input.length) {
            nodes.push(self.node())?;
        }
        for i in input.given..input.length {
            nodes.push(if i % 4 == 0 { 5 } else { 0 })?;
        }
        Ok(nodes)
    }

    // Two a word, the first in the low byte; 0 behind the record's end. Those that are not given are the letter a.
    pub(crate) fn bytes(&mut self, alloc: Global, input: Input) -> Result<Vec<u8>, Fault> {
        let mut bytes = Vec::with_capacity(alloc, input.given.max(input.length))?;
        bytes.extend_from_slice(self.next_bytes(input.given))?;
        self.next_bytes(input.given % 2);
        bytes.resize(input.given, 0)?;
        bytes.resize(input.length, b'a')?;
        Ok(bytes)
    }

    // All that is left, but no more than so many.
    pub(crate) fn numbers(&self, alloc: Global, most: usize) -> Result<Vec<u32>, AllocError> {
        let (words, _) = self.0.as_chunks();
        words
            .iter()
            .take(most)
            .map(|word| u32::from(u16::from_le_bytes(*word)))
            .collect(alloc)
    }
}
