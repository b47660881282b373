// What lies on a file or a device, by the bytes at fixed places by which the tools of Linux know it.
use std::fmt::{Display, Formatter};
use std::fs::File;
use std::os::unix::fs::FileExt;
use std::{fmt, io};

/// What lies on a file or a device. Its text is a noun with its article.
#[derive(Clone, Copy, Debug, PartialEq, Eq)]
pub struct Signature {
    name: &'static str,
}

impl Display for Signature {
    fn fmt<W: fmt::Write>(&self, f: &mut Formatter<W>) -> fmt::Result {
        f.write_str(self.name)
    }
}

/// No magic has more bytes.
const LONGEST: usize = 24;

/// The places of signatures in bytes, the bytes there, and what they tell of. `wipefs -a` takes away each of them, and a table of partitions only with
/// `-f`. A boot sector has the last two bytes of such a table too, so what is known of the former stands here, and a table of partitions is looked for
/// behind it.
const MAGICS: &[(u64, &[u8], &str)] = &[
    (1080, b"\x53\xef", EXT),
    (0, b"XFSB", "an XFS file system"),
    (0, b"\xfe\xed\xba\xbe", "the log of an XFS file system"),
    (8244, b"ReIsErFs", "an old ReiserFS file system"),
    (65536, b"ReIsEr4", "a Reiser4 file system"),
    (3, b"NTFS    ", "an NTFS file system"),
    (3, b"EXFAT   ", "an exFAT file system"),
    (3, b"-FVE-FS-", "a BitLocker volume"),
    (54, b"FAT12   ", FAT),
    (54, b"FAT16   ", FAT),
    (54, b"FAT     ", FAT),
    (82, b"FAT32   ", FAT),
    (32768, b"JFS1", "a JFS file system"),
    (1024, b"\x10\x20\xf5\xf2", "an F2FS file system"),
    (1024, b"\xe2\xe1\xf5\xe0", "an EROFS file system"),
    (0, b"hsqs", "a SquashFS file system"),
    (1030, b"\x34\x34", "a NILFS2 file system"),
    (1024, b"H+", "an HFS+ file system"),
    (1024, b"HX", "an HFS+ file system"),
    (1024, b"BD", "an HFS file system"),
    (32, b"NXSB", "an APFS container"),
    (4120, BCACHEFS, "a bcachefs file system"),
    (32769, b"CD001", "an ISO 9660 file system"),
    (32769, b"BEA01", "a UDF file system"),
    (32769, b"NSR02", "a UDF file system"),
    (32769, b"NSR03", "a UDF file system"),
    (4086, b"SWAPSPACE2", SWAP),
    (8182, b"SWAPSPACE2", SWAP),
    (16374, b"SWAPSPACE2", SWAP),
    (32758, b"SWAPSPACE2", SWAP),
    (65526, b"SWAPSPACE2", SWAP),
    (4086, b"SWAP-SPACE", SWAP),
    (8182, b"SWAP-SPACE", SWAP),
    (16374, b"SWAP-SPACE", SWAP),
    (32758, b"SWAP-SPACE", SWAP),
    (65526, b"SWAP-SPACE", SWAP),
    (4086, b"S1SUSPEND", ASLEEP),
    (4086, b"S2SUSPEND", ASLEEP),
    (4086, b"ULSUSPEND", ASLEEP),
    (4086, b"LINHIB0001", ASLEEP),
    (0, b"LUKS\xba\xbe", LUKS),
    (16384, b"SKUL\xba\xbe", LUKS),
    (24, b"LVM2 001", LVM),
    (536, b"LVM2 001", LVM),
    (1048, b"LVM2 001", LVM),
    (1560, b"LVM2 001", LVM),
    (0, RAID_MAGIC, RAID),
    (4096, RAID_MAGIC, RAID),
    (4120, BCACHE, "a member of bcache"),
    (512, b"EFI PART", GPT),
    (4096, b"EFI PART", GPT),
];

const EXT: &str = "an ext2, ext3 or ext4 file system";

const FAT: &str = "a FAT file system";

const SWAP: &str = "swap space";

const ASLEEP: &str = "swap space with a system that sleeps";

const LUKS: &str = "a LUKS volume";

const LVM: &str = "a physical volume of LVM";

const RAID: &str = "a member of a RAID";

const GPT: &str = "a partition table (GPT)";

const RAID_MAGIC: &[u8] = b"\xfc\x4e\x2b\xa9";

const BCACHE: &[u8] = b"\xc6\x85\x73\xf6\x4e\x1a\x45\xca\x82\x65\xf5\x7f\x48\xba\x6d\x81";

const BCACHEFS: &[u8] = b"\xc6\x85\x73\xf6\x66\xce\x90\xa9\xd9\x6a\x60\xcf\x80\x3d\xf7\xef";

fn magics() -> &'static [(u64, &'static [u8], &'static str)] {
    MAGICS
}

impl Signature {
    /// What lies on a file of so many bytes, if it is something that is known. Of several it is one. The two formats that this program
    /// works on are not looked for: the caller knows them.
    pub fn of(file: &File, size: u64) -> io::Result<Option<Signature>> {
        for (at, magic, name) in magics() {
            if stands(file, *at, magic)? {
                return Ok(Some(Signature { name }));
            }
        }
        if is_raid(file, size)? {
            return Ok(Some(Signature { name: RAID }));
        }
        if is_zfs(file)? {
            return Ok(Some(Signature {
                name: "a member of a ZFS pool",
            }));
        }
        if is_second_gpt(file, size)? {
            return Ok(Some(Signature { name: GPT }));
        }
        if is_mbr(file)? {
            return Ok(Some(Signature {
                name: "a partition table (MBR)",
            }));
        }
        Ok(None)
    }
}

/// Whether these bytes stand there. Behind the end of the file stands nothing.
fn stands(file: &File, at: u64, magic: &[u8]) -> io::Result<bool> {
    let mut found = [0; LONGEST];
    let count = file.read_at(&mut found, at)?;
    Ok(found[..count].starts_with(magic))
}

/// Whether a superblock of a RAID stands at the end of a device: in the last but one area of 64 KiB that begins at a multiple of that, of the
/// version 0.90 and in either order of bytes, 8 KiB before the end, of the version 1.0, or in one of the last sectors, of RAIDs of the firmware.
fn is_raid(file: &File, size: u64) -> io::Result<bool> {
    let old = (size & !0xffff).checked_sub(0x10000);
    let new = (size & !0xfff).checked_sub(0x2000);
    let intel = (size & !0x1ff).checked_sub(0x400);
    let ddf = (size & !0x1ff).checked_sub(0x200);
    Ok(
        stands_at(file, old, RAID_MAGIC)?
            || stands_at(file, old, b"\xa9\x2b\x4e\xfc")?
            || stands_at(file, new, RAID_MAGIC)?
            || stands_at(file, intel, b"Intel Raid ISM Cfg Sig. ")?
            || stands_at(file, ddf, b"\xde\x11\xde\x11")?,
    )
}

/// Whether these bytes stand at a place, if there is one.
fn stands_at(file: &File, at: Option<u64>, magic: &[u8]) -> io::Result<bool> {
    match at {
        Some(at) => stands(file, at, magic),
        None => Ok(false),
    }
}

/// Whether a table of partitions has its copy in the last sector, of 512 or 4096 bytes.
fn is_second_gpt(file: &File, size: u64) -> io::Result<bool> {
    let small = (size & !0x1ff).checked_sub(0x200);
    let large = (size & !0xfff).checked_sub(0x1000);
    Ok(stands_at(file, small, b"EFI PART")? || stands_at(file, large, b"EFI PART")?)
}

/// Whether at least four of the 128 places for superblocks of ZFS have one, in either order of bytes. `wipefs` leaves up to three.
fn is_zfs(file: &File) -> io::Result<bool> {
    let mut count = 0_u64;
    for place in 0..128_u64 {
        let at = 131072 + place * 1024;
        if stands(file, at, b"\x0c\xb1\xba\0\0\0\0\0")?
            || stands(file, at, b"\0\0\0\0\0\xba\xb1\x0c")?
        {
            count = count.saturating_add(1);
        }
    }
    Ok(count >= 4)
}

/// Whether a table of four partitions stands in the first sector: behind it the sector has its mark, and each of the four begins with a byte
/// that says whether the partition is booted. A boot sector has its mark too, and code where the table would be.
fn is_mbr(file: &File) -> io::Result<bool> {
    let mut found = [1; 66];
    let _count = file.read_at(&mut found, 446)?;
    Ok(
        found[64] == 0x55
            && found[65] == 0xaa
            && is_boot_flag(found[0])
            && is_boot_flag(found[16])
            && is_boot_flag(found[32])
            && is_boot_flag(found[48]),
    )
}

fn is_boot_flag(byte: u8) -> bool {
    byte == 0 || byte == 0x80
}
