use host_edge::{DeviceNumber, Mount};
use std::io;

/// A line, the number of its device, and its source.
type Line = (&'static str, u64, u64, Option<&'static str>);

const LINES: &[Line] = &[
    // A partition, and a part of it that is bound elsewhere.
    (
        "29 1 8:1 / / rw,relatime shared:1 - ext4 /dev/sda1 rw",
        8,
        1,
        Some("/dev/sda1"),
    ),
    (
        "97 29 8:1 /srv/a /mnt/b rw,relatime shared:1 - ext4 /dev/sda1 rw",
        8,
        1,
        Some("/dev/sda1"),
    ),
    // A name of the device mapper.
    (
        "31 1 253:0 / /home rw,relatime shared:2 - xfs /dev/mapper/vg0-home rw,attr2",
        253,
        0,
        Some("/dev/mapper/vg0-home"),
    ),
    // Btrfs has a number of its own that is no device's, so that only the source tells.
    (
        "40 1 0:35 /@ /data rw,relatime shared:3 - btrfs /dev/sdb1 rw,space_cache",
        0,
        35,
        Some("/dev/sdb1"),
    ),
    // Escapes, no optional field, and a source that is no path.
    (
        r"50 1 7:0 / /mnt/a\040b ro - reiserfs /srv/my\040disk\134x ro",
        7,
        0,
        Some(r"/srv/my disk\x"),
    ),
    (
        "23 29 0:22 / /proc rw,nosuid shared:12 - proc proc rw",
        0,
        22,
        None,
    ),
];

fn is_same(found: &Option<String>, wanted: &Option<&'static str>) -> bool {
    match (found, wanted) {
        (Some(found), Some(wanted)) => found.as_str() == *wanted,
        (None, None) => true,
        _ => false,
    }
}

/// Whether a line tells of a device and of its source.
fn tells(
    rt: &HostRuntime,
    line: &str,
    device: DeviceNumber,
    source: &Option<&'static str>,
) -> io::Result<bool> {
    match Mount::read(line.as_bytes()) {
        Some(mount) => {
            let found = mount.source(rt.alloc())?;
            Ok(mount.device() == device && is_same(&found, source))
        }
        None => Ok(false),
    }
}

#[test]
fn lines_of_real_systems(rt: HostRuntime) -> io::Result<()> {
    for (line, major, minor, source) in LINES {
        let (major, minor) = (*major, *minor);
        let device = DeviceNumber { major, minor };
        assert!(rt; tells(&rt, *line, device, source)?, "{line}");
    }
    Ok(())
}

const NO_LINES: [&str; 3] = [
    "",
    "29 1 8 / / rw - ext4 /dev/sda1 rw",
    "29 1 8:1 / / rw ext4 /dev/sda1 rw",
];

#[test]
fn what_is_no_line_is_passed_over(rt: HostRuntime) {
    for line in &NO_LINES {
        assert!(rt; Mount::read(line.as_bytes()).is_none());
    }
}

#[test]
fn a_device_number_is_read_as_linux_writes_it(rt: HostRuntime) {
    let number = DeviceNumber {
        major: 259,
        minor: 0x12345,
    };
    assert!(rt; DeviceNumber::decoded(0x1231_0345) == number);
}
