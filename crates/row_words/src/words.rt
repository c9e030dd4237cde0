//! The words of a call.
use crate::number::decimal;
use crate::pieces::bytes_of;
use crate::row_fault::RowFault;
use crate::texts::Texts;
use eden_base::{Name, NameFault, cut};
use std::alloc::Global;

/// The words of a call that are still to be read, with the texts that they may name. A word that lacks, or is none of
/// those that may stand there, is a fault, which `end` tells: a call reads all its words, and makes nothing before that.
#[derive(Drop)]
pub struct Words<'a> {
    alloc: Global,
    texts: &'a Texts,
    rest: &'a [u8],
    fault: Option<RowFault>,
}

impl<'a> Words<'a> {
    /// Makes the words of `line`, which stand apart by one space. `texts` are those that they may name.
    pub fn of(alloc: Global, texts: &'a Texts, line: &'a [u8]) -> Words<'a> {
        Words {
            alloc,
            texts,
            rest: line,
            fault: None,
        }
    }

    /// Returns where memory comes from.
    pub fn alloc(&self) -> Global {
        self.alloc
    }

    /// Notes that a word is none of those that may stand there.
    pub fn refuse(&mut self) {
        self.fault = Some(RowFault::BadRow);
    }

    /// Returns whether there are more words.
    pub fn has_more(&self) -> bool {
        !self.rest.is_empty()
    }

    /// Ends the reading: returns the fault if a word was none of those that may stand there, or if words are left.
    pub fn end(&self) -> Result<(), RowFault> {
        match self.fault {
            Some(fault) => Err(fault),
            None if self.rest.is_empty() => Ok(()),
            None => Err(RowFault::BadRow),
        }
    }

    /// Reads the next word, which is empty if there is none.
    pub fn word(&mut self) -> &'a [u8] {
        let rest = self.rest;
        if rest.is_empty() {
            self.refuse();
        }
        let (word, behind) = cut(rest, b' ').unwrap_or((rest, &[]));
        self.rest = behind;
        word
    }

    /// Reads all words that are left, as one text.
    pub fn line(&mut self) -> &'a [u8] {
        let line = self.rest;
        self.rest = &[];
        line
    }

    /// Reads the next word as a number.
    pub fn number(&mut self) -> u64 {
        match decimal(self.word()) {
            Some(number) => number,
            None => {
                self.refuse();
                0
            }
        }
    }

    /// Reads the next word as bytes.
    pub fn bytes(&mut self) -> Vec<u8> {
        let word = self.word();
        match bytes_of(self.alloc, self.texts, word) {
            Ok(bytes) => bytes,
            Err(fault) => {
                self.fault = Some(fault);
                Vec::new(self.alloc)
            }
        }
    }

    /// Reads the next word as a name, or returns none and notes the fault.
    pub fn name(&mut self) -> Option<Name> {
        let bytes = self.bytes();
        match Name::parse(self.alloc, bytes.as_slice()) {
            Ok(name) => Some(name),
            Err(NameFault::NoMemory) => {
                self.fault = Some(RowFault::NoMemory);
                None
            }
            Err(_) => {
                self.refuse();
                None
            }
        }
    }
}
