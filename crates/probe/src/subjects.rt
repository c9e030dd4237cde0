//! The subjects of rows. Each group of them keeps the values that its calls change, and makes a call by its words.
use message_rows::MessageValues;
use row_words::{Output, RowFault, Words};
use served_rows::ServedValues;
use std::alloc::Global;
use tree_rows::Trees;
use wire_rows::Wire;

/// The values that calls change, from the first row of a case to its last.
pub(crate) struct Subjects {
    alloc: Global,
    wire: Wire,
    messages: MessageValues,
    trees: Trees,
    served: ServedValues,
}

impl Drop for Subjects {
    fn drop(self) {
        let Subjects {
            alloc: _,
            wire: _,
            messages: _,
            trees: _,
            served: _,
        } = self;
    }
}

impl Subjects {
    /// Makes the values that a case begins with.
    pub(crate) fn new(alloc: Global) -> Subjects {
        Subjects {
            alloc,
            wire: Wire::new(alloc),
            messages: MessageValues::new(alloc),
            trees: Trees::new(alloc),
            served: ServedValues::new(alloc),
        }
    }

    /// Forgets all values, for the next case.
    pub(crate) fn clear(&mut self, alloc: Global) {
        *self = Subjects::new(alloc);
    }

    /// Makes the call that `words` tell, the subject first, and writes its result to `output`.
    pub(crate) fn call(
        &mut self,
        words: &mut Words<'_>,
        output: &mut Output,
    ) -> Result<(), RowFault> {
        let alloc = self.alloc;
        let subject = words.word();
        match subject {
            b"name" | b"perm" | b"codec" | b"queue" | b"arena" | b"fuse" | b"kernel" => {
                self.wire.call(subject, words, output)
            }
            b"broker" | b"desk" | b"frames" | b"mount" | b"node" => {
                self.messages.call(alloc, subject, words, output)
            }
            b"keys" | b"index" | b"manifest" | b"git" | b"tree" | b"map" => {
                self.trees.call(subject, words, output)
            }
            b"served" | b"backing" | b"image" => self.served.call(subject, words, output),
            _ => Err(RowFault::BadRow),
        }
    }
}
