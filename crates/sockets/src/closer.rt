//! How one thread ends another thread's wait at a listening socket.
use std::io;
use std::net::Shutdown;
use std::os::fd::OwnedFd;
use std::os::unix::net::{UnixListener, UnixStream};

/// Another handle of a listening socket. By it a thread ends another thread's wait for a connection.
#[derive(Drop)]
pub struct Closer {
    socket: UnixStream,
}

impl Closer {
    /// Returns another handle of `listener`.
    pub fn of(listener: &UnixListener) -> io::Result<Closer> {
        let socket = OwnedFd::from(listener.try_clone()?);
        Ok(Closer {
            socket: UnixStream::from(socket),
        })
    }

    /// Shuts the socket down: nobody can connect to it any more, and `accept` fails.
    pub fn close(&self) {
        let _closed = self.socket.shutdown(Shutdown::Both);
    }
}
