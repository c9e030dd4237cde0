//! The link that was inserted last.
ghost use Rattle.std.specs.Prelude.{◌≡◌};
ghost use Rattle.directory_index.specs.PlaceIndex.{is_latest, is_latest_in, latest_at, latest_from};

/// The link that was inserted last: its directory, the key of its place, and its number.
#[derive(Drop)]
pub(crate) struct Link {
    pub(crate) dir: u64,
    pub(crate) key: u64,
    pub(crate) number: u64,
}

/// Returns whether `latest` is of `number`.
pub(crate) fn is_latest(latest: &Option<Link>, number: u64) -> bool
    ensures { result ≡ is_latest latest.now number }
{
    match latest {
        Some(link) => link.number == number,
        None => false,
    }
}

/// Returns whether `latest` stands in the directory `dir`.
pub(crate) fn is_latest_in(latest: &Option<Link>, dir: u64) -> bool
    ensures { result ≡ is_latest_in latest.now dir }
{
    match latest {
        Some(link) => link.dir == dir,
        None => false,
    }
}

/// Returns the number of `latest`, if `key` is its key.
pub(crate) fn latest_at(latest: &Option<Link>, key: u64) -> Option<u64>
    ensures { result ≡ latest_at latest.now key }
{
    match latest {
        Some(link) if link.key == key => Some(link.number),
        _ => None,
    }
}

/// Returns the number of `latest`, if it stands in the directory `dir` and is `least` or greater.
pub(crate) fn latest_from(latest: &Option<Link>, dir: u64, least: u64) -> Option<u64>
    ensures { result ≡ latest_from latest.now dir least }
{
    match latest {
        Some(link) if link.dir == dir && link.number >= least => Some(link.number),
        _ => None,
    }
}
