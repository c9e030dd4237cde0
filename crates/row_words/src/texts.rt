//! The texts that a file of cases has named.
use crate::row_fault::RowFault;
use std::alloc::Global;

/// A text with its name.
#[derive(Drop)]
struct Text {
    name: Vec<u8>,
    bytes: Vec<u8>,
}

/// The named texts, the oldest first.
#[derive(Drop)]
pub struct Texts {
    texts: Vec<Text>,
}

impl Texts {
    /// Makes a list of no text.
    pub fn new(alloc: Global) -> Texts {
        Texts {
            texts: Vec::new(alloc),
        }
    }

    /// Returns the text that `name` names, if there is one.
    pub fn get(&self, name: &[u8]) -> Option<&[u8]> {
        for text in &self.texts {
            if text.name.as_slice() == name {
                return Some(text.bytes.as_slice());
            }
        }
        None
    }

    /// Has `name` name `bytes` from now on.
    pub fn set(&mut self, alloc: Global, name: &[u8], bytes: Vec<u8>) -> Result<(), RowFault> {
        for text in &mut self.texts {
            if text.name.as_slice() == name {
                text.bytes = bytes;
                return Ok(());
            }
        }
        let name = Vec::from_slice(alloc, name)?;
        self.texts.push(Text { name, bytes })?;
        Ok(())
    }

    /// Appends `line` and a line feed to the text that `name` names, which is empty if there is none.
    pub fn append(&mut self, alloc: Global, name: &[u8], line: &[u8]) -> Result<(), RowFault> {
        let mut bytes = match self.get(name) {
            Some(text) => Vec::from_slice(alloc, text)?,
            None => Vec::new(alloc),
        };
        bytes.extend_from_slice(line)?;
        bytes.push(b'\n')?;
        self.set(alloc, name, bytes)
    }
}
