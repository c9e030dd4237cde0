//! The socket at which daemons reach a broker.
use sockets::{Closer, changed_at, listen_alone_at, remove_unchanged};
use std::alloc::Global;
use std::io;
use std::net::Net;
use std::os::unix::net::UnixListener;
use std::rt::{Clock, Files};
use std::time::SystemTime;

/// A socket at which a broker listens.
#[derive(Drop)]
pub(crate) struct BrokerSocket {
    pub listener: UnixListener,
    /// By it the wait for a connection is ended.
    pub closer: Closer,
    /// When the socket was made, by which it differs from another one at the same path.
    made: Option<SystemTime>,
}

impl BrokerSocket {
    /// Listens at `path`, unless another process listens there: that is an error.
    pub(crate) fn listen<R: Clock + Files + Net>(
        rt: &R,
        alloc: Global,
        path: &str,
    ) -> io::Result<BrokerSocket> {
        let listener = listen_alone_at(rt, alloc, path)?;
        let made = changed_at(rt, path);
        match Closer::of(&listener) {
            Ok(closer) => Ok(BrokerSocket {
                listener,
                closer,
                made,
            }),
            Err(error) => {
                remove_unchanged(rt, path, made);
                Err(error)
            }
        }
    }

    /// Removes the socket at `path`, unless another one stands there by now.
    pub(crate) fn remove<R: Files>(&self, rt: &R, path: &str) {
        remove_unchanged(rt, path, self.made);
    }
}
