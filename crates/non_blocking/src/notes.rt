//! Notes on standard error.
use crate::line_queue::LineQueue;
use std::fmt::Display;
use std::sync::{Arc, Wait};

/// A handle by which threads say on standard error what happened. A note holds nobody, and where it can't be written it
/// is dropped.
#[derive(Drop)]
pub struct Notes {
    queue: Option<Arc<LineQueue>>,
}

impl Notes {
    /// Returns a handle that says nothing.
    pub fn none() -> Notes {
        Notes { queue: None }
    }

    /// Returns a handle that says notes by `queue`.
    pub(crate) fn of(queue: &Option<Arc<LineQueue>>) -> Notes {
        let Some(queue) = queue else {
            return Notes::none();
        };
        Notes {
            queue: Arc::try_clone(queue).ok(),
        }
    }

    /// Returns another handle of the same notes.
    pub fn again(&self) -> Notes {
        Notes::of(&self.queue)
    }

    /// Says `edend: NOTE` on standard error, on a line of its own.
    pub fn say<R: Wait, D: Display + Drop>(&self, rt: &R, note: D) {
        if let Some(queue) = &self.queue {
            queue.print(rt, format_args!("edend: {note}"));
        }
    }
}
