// The text of a server's version, and the order of versions.
ghost use Rattle.std.specs.Prelude.{◌≡◌, MatchResult, None, Ok, Some};
ghost use Rattle.gr_ids.specs.Names.{bytes_lt};
ghost use Rattle.semver.specs.Identifiers.{parts_of};
ghost use Rattle.semver.specs.Parse.{version_parts};
ghost use Rattle.primary_election.specs.Texts.{plain_version, version_of};

use semver::Version;
use std::alloc::{AllocError, Global};
use thiserror::Error;

/// The first version whose elections go by version and weight alone.
const LEAST_VERSION: [u64; 3] = [8, 0, 17];

/// Why a version isn't read.
#[derive(Clone, Copy, Debug, PartialEq, Eq, Error)]
pub enum VersionFault {
    /// The text isn't three numbers of a version of at least 8.0.17, without pre-release or build.
    #[error("not a version of at least 8.0.17")]
    BadVersion,
    /// Memory was refused.
    #[error("out of memory")]
    Memory,
}

impl From<semver::Error> for VersionFault {
    fn from(error: semver::Error) -> Self {
        if error == semver::Error::from(AllocError) {
            VersionFault::Memory
        } else {
            VersionFault::BadVersion
        }
    }
}

/// Reads a version as its major, minor and patch numbers (Semantic Versioning 2.0.0, section 2). It is refused exactly where
/// the text isn't that of a version of at least 8.0.17 without pre-release or build; of those that are, none is refused
/// memory. Linear in the text.
pub fn read_version(alloc: Global, text: &[u8]) -> Result<[u64; 3], VersionFault>
    ensures { MatchResult result (λ numbers. version_of text.now ≡ Some numbers) (λ _. version_of text.now ≡ None) }
{
    match str::from_utf8(text) {
        Ok(text) => read_text(alloc, text),
        Err(_) => Err(VersionFault::BadVersion),
    }
}

fn read_text(alloc: Global, text: &str) -> Result<[u64; 3], VersionFault>
    ensures { MatchResult result (λ numbers. plain_version (version_parts text.now) ≡ Some numbers) (λ _. plain_version (version_parts text.now) ≡ None) }
{
    match Version::parse(alloc, text) {
        Ok(version) => plain_numbers(&version),
        Err(error) => Err(VersionFault::from(error)),
    }
}

fn plain_numbers(version: &Version) -> Result<[u64; 3], VersionFault>
    ensures { MatchResult result (λ numbers. plain_version (Ok (parts_of version.now)) ≡ Some numbers) (λ _. plain_version (Ok (parts_of version.now)) ≡ None) }
{
    if !version.pre.is_empty() || !version.build.is_empty() {
        return Err(VersionFault::BadVersion);
    }
    let numbers = [version.major, version.minor, version.patch];
    if is_older(numbers, LEAST_VERSION) {
        return Err(VersionFault::BadVersion);
    }
    Ok(numbers)
}

/// Whether a version stands before another: by major, then minor, then patch number (Semantic Versioning 2.0.0, section 11).
/// Takes constant time.
pub(crate) fn is_older(version: [u64; 3], other: [u64; 3]) -> bool
    ensures { result ≡ bytes_lt version other }
{
    let other = Version::new(other[0], other[1], other[2]);
    Version::new(version[0], version[1], version[2])
        .cmp_precedence(&other)
        .is_lt()
}
