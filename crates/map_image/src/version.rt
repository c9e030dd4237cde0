//! The versions of an image.
ghost use Rattle.std.specs.Prelude.{◌≡◌, ◌≤◌, ℕ, IfSome, is_some, length};
ghost use Rattle.byte_codec.specs.Field.{number_bytes};
ghost use Rattle.map_image.specs.Versions.{form_of, is_named_so, named_by, width_of, IsForm};

use eden_base::GREATEST_COUNT;

/// How many bytes a count takes.
#[derive(Clone, Copy)]
pub enum CountWidth {
    Four,
    Eight,
}

/// By what an image names the manifest that it belongs to.
#[derive(Clone, Copy)]
pub enum NamedBy {
    /// The commit of the manifest.
    Commit,
    /// The digest of the manifest's text, which tells manifests of one commit with other lines apart.
    Digest,
}

/// How a text is sent to the next daemon.
#[derive(Clone, Copy)]
pub enum Sending {
    /// In one message.
    Whole,
    /// In numbered messages, a part in each.
    Parts,
}

/// How the texts of one version differ from those of another.
#[derive(Clone, Copy)]
pub struct VersionForm {
    pub named_by: NamedBy,
    pub count_width: CountWidth,
    /// A greater count is neither written nor read.
    pub greatest_count: u64,
    /// The longest text that is written, in bytes.
    pub longest: usize,
    pub sending: Sending,
}

/// The form of version 1.
const FIRST: VersionForm = VersionForm {
    named_by: NamedBy::Commit,
    count_width: CountWidth::Four,
    greatest_count: u32::MAX as u64,
    longest: 65_000,
    sending: Sending::Whole,
};

/// The form of version 2: a longer text, which isn't sent whole.
const SECOND: VersionForm = VersionForm {
    longest: 268_435_456,
    sending: Sending::Parts,
    ..FIRST
};

/// The form of version 3: wider counts, up to the greatest that the kernel may hold.
const THIRD: VersionForm = VersionForm {
    count_width: CountWidth::Eight,
    greatest_count: GREATEST_COUNT,
    ..SECOND
};

/// The form of version 4: the manifest is named by its digest.
const FOURTH: VersionForm = VersionForm {
    named_by: NamedBy::Digest,
    ..THIRD
};

/// Returns the form of `version`, if there is such a version.
pub fn form_of(version: u16) -> Option<VersionForm>
    ensures row { result ≡ form_of version }
    ensures keeps { IfSome result IsForm }
{
    match version {
        1 => Some(FIRST),
        2 => Some(SECOND),
        3 => Some(THIRD),
        4 => Some(FOURTH),
        _ => None,
    }
}

/// Returns whether `version` is a version of an image.
pub fn is_version(version: u16) -> bool
    ensures is { result ≡ is_some (form_of version) }
{
    form_of(version).is_some()
}

/// Returns by what images of `version` name their manifest; `Commit` if there is no such version.
pub fn named_by(version: u16) -> NamedBy
    ensures by { result ≡ named_by version }
{
    match form_of(version) {
        Some(form) => form.named_by,
        None => NamedBy::Commit,
    }
}

impl NamedBy {
    /// Returns whether `other` names a manifest by the same.
    pub(crate) fn is(self, other: NamedBy) -> bool
        ensures { result ≡ is_named_so self other }
    {
        match self {
            NamedBy::Commit => matches!(other, NamedBy::Commit),
            NamedBy::Digest => matches!(other, NamedBy::Digest),
        }
    }
}

impl CountWidth {
    /// Returns the length of a count of this width.
    #[tactic(auto, using(crate::proofs::Lengths::lengths))]
    pub(crate) fn len(self) -> usize
        ensures len { (count : ℕ) → result ≡ length (number_bytes (width_of self) count) }
        ensures at_most { result ≤ 8 }
    {
        match self {
            CountWidth::Four => 4,
            CountWidth::Eight => 8,
        }
    }
}
