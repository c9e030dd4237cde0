//! Files for blobs that the memory is too small for.
use std::alloc::Global;
use std::fs::{self, File, OpenOptions};
use std::io::{self, Error, ErrorKind, Read};
use std::os::unix::fs::OpenOptionsExt;
use std::rt::Files;

/// Where such a file is made, the first of these that can be written to: the system keeps the first one on a disk.
const FOLDERS: [&str; 2] = ["/var/tmp", "/tmp"];

/// Where random bytes come from.
const RANDOM: &str = "/dev/urandom";

/// Makes an empty file that has no name: its bytes are gone with its last owner, however that ends.
pub(crate) fn spool<R: Files<File = File>>(rt: &R, alloc: Global) -> io::Result<File> {
    let name = random_name(rt, alloc)?;
    let mut refusal = Error::from(ErrorKind::NotFound);
    for folder in FOLDERS {
        let path = format!(in alloc; "{folder}/edend-blob-{name}")?;
        match make(rt, path.as_str()) {
            Ok(file) => return Ok(file),
            Err(error) => refusal = error,
        }
    }
    Err(refusal)
}

/// Returns a name that nobody can have taken before: 128 random bits.
fn random_name<R: Files<File = File>>(rt: &R, alloc: Global) -> io::Result<String> {
    let mut bits = [0u8; 16];
    File::open(rt, RANDOM)?.read_exact(&mut bits)?;
    Ok(hex::encode(alloc, bits)?)
}

/// Makes the file at `path`, which nobody else may read, and takes its name away.
fn make<R: Files<File = File>>(rt: &R, path: &str) -> io::Result<File> {
    let file = OpenOptions::new()
        .read(true)
        .write(true)
        .create_new(true)
        .mode(0o600)
        .open(rt, path)?;
    fs::remove_file(rt, path)?;
    Ok(file)
}
