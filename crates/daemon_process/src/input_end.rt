//! The end of standard input, by which an operator ends a daemon.
use crate::exit::Exit;
use crate::fault::DaemonFault;
use crate::shared::Shared;
use std::io::{self, ErrorKind, Read};
use std::rt::Clock;
use std::sync::{Arc, Wait};
use std::thread;
use std::thread::Threads;
use std::time::Duration;

/// How many bytes of standard input are read at a time.
const CHUNK: usize = 512;

/// How many milliseconds pass before a read is made again.
const PAUSE: u64 = 20;

/// Makes a thread that reads `input`, which is standard input, to its end, and then closes `shared`. Nobody waits for
/// the thread: if the daemon ends before, standard input may stay open. Call this before the first socket is made. If
/// the program was started without standard input, the system may give its descriptor to a socket.
pub(crate) fn close_with_input<
    R: Threads + Wait + Clock + Copy + Send + 'static,
    I: Read + Drop + Send + 'static,
>(rt: &R, shared: &Arc<Shared>, input: I) -> Result<(), Exit> {
    let mut input = input;
    if input.read(&mut []).is_err() {
        shared.close(rt);
        return Ok(());
    }
    let host = *rt;
    let Ok(shared) = Arc::try_clone(shared) else {
        return Err(Exit::Faulty(DaemonFault::NoMemory));
    };
    match thread::spawn(rt, move || close_behind(&host, &shared, input)) {
        Ok(_running) => Ok(()),
        Err(_refused) => Err(Exit::Faulty(DaemonFault::NoThread)),
    }
}

/// Reads standard input to its end, and then closes `shared`.
fn close_behind<R: Wait + Clock, I: Read + Drop>(rt: &R, shared: &Shared, input: I) {
    let mut input = input;
    read_to_end(rt, &mut input);
    shared.close(rt);
}

/// Reads `reader` to its end. An error is an end too, unless it asks for another read.
fn read_to_end<R: Wait + Clock, T: Read>(rt: &R, reader: &mut T) {
    let mut chunk = [0; CHUNK];
    for _ in rt.forever() {
        match reader.read(&mut chunk) {
            Ok(0) => return,
            Ok(_more) => {}
            Err(error) if asks_again(&error) => thread::sleep(rt, Duration::from_millis(PAUSE)),
            Err(_failed) => return,
        }
    }
    unreachable!()
}

/// Returns whether a read that failed has to be made again: it was interrupted, or there is nothing to read yet.
fn asks_again(error: &io::Error) -> bool {
    matches!(error.kind(), ErrorKind::Interrupted | ErrorKind::WouldBlock)
}
