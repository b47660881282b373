use crate::asked::Verb;
use crate::finding::Finding;
use std::alloc::{AllocError, Global};
use uuid::Uuid;

/// An option of the command line.
#[derive(Clone, Copy, Debug, PartialEq, Eq)]
pub enum Choice {
    Nodesize,
    NoInline,
    NoDatasum,
    Label,
    CopyLabel,
    Uuid,
    Csum,
    Verbose,
}

/// The words of all options.
pub fn option_words() -> &'static [&'static str] {
    &[
        "--nodesize",
        "--no-inline",
        "--no-datasum",
        "--label",
        "--copy-label",
        "--uuid",
        "--csum",
        "--verbose",
        "--help",
        "--version",
    ]
}

impl Choice {
    /// The option of this word.
    pub fn named(word: &str) -> Option<Choice> {
        match word {
            "--nodesize" => Some(Choice::Nodesize),
            "--no-inline" => Some(Choice::NoInline),
            "--no-datasum" => Some(Choice::NoDatasum),
            "--label" => Some(Choice::Label),
            "--copy-label" => Some(Choice::CopyLabel),
            "--uuid" => Some(Choice::Uuid),
            "--csum" => Some(Choice::Csum),
            "--verbose" => Some(Choice::Verbose),
            _ => None,
        }
    }

    /// Its word.
    pub fn word(self) -> &'static str {
        match self {
            Choice::Nodesize => "--nodesize",
            Choice::NoInline => "--no-inline",
            Choice::NoDatasum => "--no-datasum",
            Choice::Label => "--label",
            Choice::CopyLabel => "--copy-label",
            Choice::Uuid => "--uuid",
            Choice::Csum => "--csum",
            Choice::Verbose => "--verbose",
        }
    }

    /// Whether a value stands behind it.
    pub fn has_value(self) -> bool {
        matches!(
            self,
            Choice::Nodesize | Choice::Label | Choice::Uuid | Choice::Csum
        )
    }

    /// Whether a command has it.
    pub fn is_of(self, verb: Verb) -> bool {
        match self {
            Choice::Verbose => true,
            Choice::Nodesize | Choice::NoInline | Choice::NoDatasum | Choice::Csum => {
                matches!(verb, Verb::Inspect | Verb::Convert)
            }
            Choice::Label | Choice::CopyLabel | Choice::Uuid => verb == Verb::Convert,
        }
    }

    /// Whether it and another one can't be together: the same twice, or both ways to say which label.
    pub fn excludes(self, other: Choice) -> bool {
        match self {
            Choice::Label | Choice::CopyLabel => {
                matches!(other, Choice::Label | Choice::CopyLabel)
            }
            _ => self == other,
        }
    }

    /// What is wrong with its value, if something is.
    pub fn wrong_value(self, alloc: Global, value: &str) -> Result<Option<Finding>, AllocError> {
        match self {
            Choice::Nodesize => wrong_nodesize(alloc, value),
            Choice::Label => wrong_label(alloc, value),
            Choice::Uuid => wrong_uuid(alloc, value),
            Choice::Csum => wrong_csum(alloc, value),
            _ => Ok(None),
        }
    }
}

const NODESIZE: &str =
    "'{1}' is no size of a node: '--nodesize' takes 4096, 8192, 16384, 32768 or 65536, in bytes.";

const IN_BYTES: &str = "'--nodesize' takes bytes: write '--nodesize {2}' in place of '{1}'.";

const NO_NODESIZE: &str =
    "A value is missing behind '--nodesize': 4096, 8192, 16384, 32768 or 65536, in bytes.";

fn wrong_nodesize(alloc: Global, value: &str) -> Result<Option<Finding>, AllocError> {
    if value.starts_with('-') {
        return found(Finding::new(alloc, NO_NODESIZE, "", ""));
    }
    match value {
        "4096" | "8192" | "16384" | "32768" | "65536" => Ok(None),
        _ => match in_bytes(value) {
            Some(bytes) => found(Finding::new(alloc, IN_BYTES, value, bytes)),
            None => found(Finding::new(alloc, NODESIZE, value, "")),
        },
    }
}

/// The bytes of a size that is written in KiB.
fn in_bytes(value: &str) -> Option<&'static str> {
    match value {
        "4K" | "4k" | "4KiB" | "4KB" => Some("4096"),
        "8K" | "8k" | "8KiB" | "8KB" => Some("8192"),
        "16K" | "16k" | "16KiB" | "16KB" => Some("16384"),
        "32K" | "32k" | "32KiB" | "32KB" => Some("32768"),
        "64K" | "64k" | "64KiB" | "64KB" => Some("65536"),
        _ => None,
    }
}

const LONG_LABEL: &str = "The label has more than 255 bytes, and Btrfs takes no longer one.";

const BROKEN_LABEL: &str = "The label has a line feed, which a label may not have.";

fn wrong_label(alloc: Global, value: &str) -> Result<Option<Finding>, AllocError> {
    if value.len() > 255 {
        found(Finding::new(alloc, LONG_LABEL, "", ""))
    } else if value.contains('\n') {
        found(Finding::new(alloc, BROKEN_LABEL, "", ""))
    } else {
        Ok(None)
    }
}

const NO_UUID: &str =
    "'{1}' is no UUID: '--uuid' takes 'new', 'copy' or one in the form 01234567-89ab-cdef-0123-456789abcdef.";

const ZERO_UUID: &str =
    "A UUID of zeros names nothing: '--uuid' takes 'new', 'copy' or another UUID.";

fn wrong_uuid(alloc: Global, value: &str) -> Result<Option<Finding>, AllocError> {
    if value == "new" || value == "copy" {
        return Ok(None);
    }
    match Uuid::try_parse(value) {
        Ok(uuid) if value.len() == 36 => {
            if uuid.into_bytes() == [0; 16] {
                found(Finding::new(alloc, ZERO_UUID, "", ""))
            } else {
                Ok(None)
            }
        }
        _ => found(Finding::new(alloc, NO_UUID, value, "")),
    }
}

const NO_CSUM: &str = "A value is missing behind '--csum': crc32c or sha256.";

const CSUM: &str = "'{1}' is no kind of checksum: '--csum' takes crc32c or sha256.";

const SO_SPELLED: &str = "'{1}' is written '{2}': write '--csum {2}'.";

/// Two kinds of checksum that Btrfs knows, and that are not made here.
const OTHER_CSUM: &str =
    "This program makes no checksums by '{1}': '--csum' takes crc32c or sha256.";

fn wrong_csum(alloc: Global, value: &str) -> Result<Option<Finding>, AllocError> {
    if value.starts_with('-') {
        return found(Finding::new(alloc, NO_CSUM, "", ""));
    }
    match value {
        "crc32c" | "sha256" => Ok(None),
        "xxhash" | "xxhash64" | "blake2" | "blake2b" => {
            found(Finding::new(alloc, OTHER_CSUM, value, ""))
        }
        _ => match well_spelled(value) {
            Some(name) => found(Finding::new(alloc, SO_SPELLED, value, name)),
            None => found(Finding::new(alloc, CSUM, value, "")),
        },
    }
}

/// The kind of checksum that is spelled in another way.
fn well_spelled(value: &str) -> Option<&'static str> {
    match value {
        "CRC32C" | "crc-32c" | "CRC-32C" | "crc32" | "CRC32" => Some("crc32c"),
        "SHA256" | "sha-256" | "SHA-256" | "sha2" | "SHA2" => Some("sha256"),
        _ => None,
    }
}

/// A finding that was made.
fn found(made: Result<Finding, AllocError>) -> Result<Option<Finding>, AllocError> {
    match made {
        Ok(finding) => Ok(Some(finding)),
        Err(e) => Err(e),
    }
}
