// What a person is told right before a command writes, and when a command is done.
use crate::paragraph::Paragraph;
use crate::recount::Recount;
use crate::space::Space;
use outside::btrfs_format::feature::{CSUM_TYPE_CRC32, CSUM_TYPE_SHA256};
use reiserconv_words::{Asked, Verb, Wanted};
use std::alloc::{AllocError, Global};
use std::str;

const CONVERT_WRITES: &str =
    "{path} is written to from now on. If this is interrupted, by Ctrl-C, a signal or a power cut, the old volume or the new one is there, whole, at each moment. Run 'reiserconv recover {path}' then: it says which, and if it is the old one, begin again.";

const ROLLBACK_WRITES: &str =
    "{path} is written to from now on. If this is interrupted, by Ctrl-C, a signal or a power cut, the Btrfs volume or the old one is there, whole, at each moment. Run 'reiserconv recover {path}' then: it says which, and if it is the Btrfs volume, begin again.";

const TRIAL_WRITES: &str =
    "{path} is overwritten from now on. If this is interrupted, by Ctrl-C, a signal or a power cut, what it holds then is of no use: take away what may tell of a volume ('wipefs -a {path}'), and begin again.";

/// What is told before a command writes its first block, by what is asked for; nothing of one that only reads, and of `recover`, which is done at once.
pub fn before(alloc: Global, asked: &Asked<'_>, path: &str) -> Result<String, AllocError> {
    let mut text = Paragraph::new(alloc, path);
    let sentence = match asked.verb {
        Some(Verb::Convert) => CONVERT_WRITES,
        Some(Verb::Rollback) => ROLLBACK_WRITES,
        Some(Verb::Trial) => TRIAL_WRITES,
        _ => "",
    };
    text.say(sentence, &[])?;
    text.end()?;
    Ok(text.into_text())
}

/// What comes behind a conversion, each a paragraph.
const CONVERTED: [&str; 7] = [
    "{path} is a Btrfs volume now. The old one is the file 'reiserfs_saved/image' in it.",
    "What comes next: 'btrfs check --readonly {path}' has to say 'no error found'. The first time, mount it with 'mount -t btrfs -o space_cache=v2 {path} /mnt'.",
    "If /etc/fstab names the volume, change its line: the type is 'btrfs', options that only ReiserFS has go, and the last two fields are '0 0'. If the line names the UUID, 'blkid {path}' shows the one that it has now.",
    "To go back, unmount it and run 'reiserconv rollback {path}': then it is as it was, without what was written since. Keep the image for as long as you may want that.",
    "What closes the way back for good: to delete the image or its folder, a balance of data, data that is kept twice or in a RAID ('-dconvert'), a smaller size that moves blocks of the image, and a defragmentation or deduplication of the image itself.",
    "What closes it for a while: to rename or move the image or its folder, until both have their names and places again; another device, until 'btrfs device remove' took it out; and metadata in a RAID, until 'btrfs balance start -f -mconvert=single -sconvert=single /mnt' made it single, without '-dconvert'.",
    "When you are sure that all is well, 'btrfs subvolume delete -c /mnt/reiserfs_saved', then 'btrfs subvolume sync /mnt' and then 'btrfs filesystem sync /mnt' free the space of the image. From then on nothing leads back.",
];

const ROLLED_BACK: &str =
    "{path} is the ReiserFS volume from before the conversion again, and what was written since is gone. 'reiserfsck --check --yes {path}' has to say 'No corruptions found'. If /etc/fstab names the volume, its line is to be the old one again.";

const IS_REISERFS: &str =
    "{path} is a ReiserFS volume. If a conversion was interrupted, it is as before: begin again with 'reiserconv convert {path}', and with the options that you gave, if any, before the path. If a rollback was interrupted, it is done.";

const IS_BTRFS: &str =
    "{path} is a Btrfs volume. If a conversion was interrupted, it is done, and 'btrfs check --readonly {path}' has to say 'no error found'. If a rollback was interrupted, begin again with 'reiserconv rollback {path}'.";

const HAS_CRC32C: &str = "{path} is a Btrfs volume, whose checksums are CRC-32C.";

const HAS_SHA256: &str = "{path} is a Btrfs volume, whose checksums are SHA-256.";

/// What comes behind a trial. `{1}` is the number of its files.
const TRIED: &str =
    "The trial went well. A ReiserFS volume with {1} {1:file:files} was made at {path}, turned into Btrfs, and turned back. The lines of 'list' were the same before and after the conversion, and so was each block in use after the way back.";

/// What comes behind that of a file.
const LEFT_IN_FILE: &str =
    "{path} still holds that ReiserFS volume, of 256 MiB, for you to look at. Remove the file when you are done with it. Before another trial take away what tells of the volume ('wipefs -a {path}').";

/// The same of a device.
const LEFT_ON_DEVICE: &str =
    "{path} still holds that ReiserFS volume, of 256 MiB, for you to look at. When you are done with it, or before another trial, take away what tells of the volume ('wipefs -a {path}'), or make a file system of yours on the device.";

/// A command that is done.
#[derive(Clone, Copy)]
pub struct Done<'a> {
    /// The first bytes that it printed.
    pub printed: &'a [u8],
    /// What was asked for.
    pub wanted: Wanted<'a>,
    /// What was counted with something else, where that was done.
    pub again: Option<&'a Recount>,
    /// Whether a trial was done on a block device.
    pub is_device: bool,
    /// The number of the kind of checksum of a Btrfs volume that was looked at.
    pub csum_type: Option<u16>,
}

/// What is told of a command that is done.
pub fn behind(
    alloc: Global,
    asked: &Asked<'_>,
    path: &str,
    done: &Done<'_>,
) -> Result<String, AllocError> {
    let mut text = Paragraph::new(alloc, path);
    let printed = str::from_utf8(done.printed).unwrap_or("");
    match asked.verb {
        Some(Verb::Convert) => tell_all(&mut text, &CONVERTED, &[])?,
        Some(Verb::Rollback) => text.say(ROLLED_BACK, &[])?,
        Some(Verb::Recover) => text.say(recovered(printed), &[])?,
        Some(Verb::Trial) => {
            let left = if done.is_device {
                LEFT_ON_DEVICE
            } else {
                LEFT_IN_FILE
            };
            tell_all(&mut text, &[TRIED, left], &[files(printed)])?
        }
        Some(Verb::Inspect) => match Space::printed(printed) {
            Some(space) => space.tell(alloc, &mut text, done.wanted, done.again)?,
            None => text.say(checksums(done.csum_type), &[])?,
        },
        _ => {}
    }
    text.end()?;
    Ok(text.into_text())
}

fn tell_all(
    text: &mut Paragraph<'_>,
    sentences: &[&str],
    parts: &[&str],
) -> Result<(), AllocError> {
    for sentence in sentences {
        text.say(*sentence, parts)?;
        text.end()?;
    }
    Ok(())
}

/// The number of the files of a trial, by its first line.
fn files(printed: &str) -> &str {
    match printed.lines().next() {
        Some(line) => line.strip_prefix("trial ").unwrap_or(""),
        None => "",
    }
}

/// Which checksums a Btrfs volume has, by the number of their kind.
fn checksums(csum_type: Option<u16>) -> &'static str {
    match csum_type {
        Some(CSUM_TYPE_CRC32) => HAS_CRC32C,
        Some(CSUM_TYPE_SHA256) => HAS_SHA256,
        _ => "",
    }
}

/// What is there, by the first line of `recover`.
fn recovered(printed: &str) -> &'static str {
    if printed.starts_with("volume is reiserfs\n") {
        IS_REISERFS
    } else if printed.starts_with("volume is btrfs\n") {
        IS_BTRFS
    } else {
        ""
    }
}
