//! The mounts of this program, in the system's table of mounts.
/// What the source of each mount of this program begins with.
const OWN: &[u8] = b"edend-";

/// A line of the table of mounts (proc_pid_mountinfo(5)): the device's numbers, the path, and the source.
#[derive(Clone, Copy)]
struct MountLine<'a> {
    device: &'a [u8],
    path: &'a [u8],
    source: &'a [u8],
}

/// Returns whether a device is that of a mount of this program. `mounts` is the table, and `device` the device's numbers as
/// they stand there.
pub(crate) fn is_of_own(mounts: &[u8], device: &[u8]) -> bool {
    for line in mounts.split(|byte| *byte == b'\n') {
        if own_line(line).is_some_and(|own| own.device == device) {
            return true;
        }
    }
    false
}

/// Returns whether `path` leads into a mount of this program by its text. A path that begins with no slash is one from the
/// directory `start` on.
pub(crate) fn is_below_own(mounts: &[u8], start: &[u8], path: &[u8]) -> bool {
    for line in mounts.split(|byte| *byte == b'\n') {
        if own_line(line).is_some_and(|own| leads_below(start, path, own.path)) {
            return true;
        }
    }
    false
}

/// Returns whether `path`, from `start` on, leads to `place` or below it.
fn leads_below(start: &[u8], path: &[u8], place: &[u8]) -> bool {
    if path.starts_with(b"/".as_slice()) {
        return is_below(path, place);
    }
    if is_below(start, place) {
        return true;
    }
    match place
        .strip_prefix(start)
        .and_then(|rest| rest.strip_prefix(b"/".as_slice()))
    {
        Some(rest) => is_below(path, rest),
        None => false,
    }
}

/// Returns whether `path` is `place`, or a path below it.
fn is_below(path: &[u8], place: &[u8]) -> bool {
    match path.strip_prefix(place) {
        Some(rest) => rest.is_empty() || rest.starts_with(b"/".as_slice()),
        None => false,
    }
}

/// Returns what a line of the table says, if it is that of a mount of this program.
fn own_line(line: &[u8]) -> Option<MountLine<'_>> {
    let read = read_line(line)?;
    if read.source.starts_with(OWN) {
        Some(read)
    } else {
        None
    }
}

/// Reads a line of the table: behind a dash, before which stand as many fields as a mount has, come its kind and its source.
fn read_line(line: &[u8]) -> Option<MountLine<'_>> {
    let mut fields = line.split(|byte| *byte == b' ');
    let device = fields.nth(2)?;
    let path = fields.nth(1)?;
    let _dash = fields.find(|field| *field == b"-".as_slice())?;
    let source = fields.nth(1)?;
    Some(MountLine {
        device,
        path,
        source,
    })
}
