// Options that other programs have, as btrfs-convert, and what they are here.

/// What an option of another program is here. `{1}` stands for it.
pub fn of_others(word: &str) -> Option<&'static str> {
    match word {
        "-d" => Some("'{1}' is '--no-datasum' here."),
        "-i" => Some("'{1}' is '--no-inline' here."),
        "-N" => Some("'{1}' is '--nodesize' here, with the bytes of a node behind a space."),
        "-l" => Some("'{1}' is '--label' here, with the label behind a space."),
        "-L" => Some("'{1}' is '--copy-label' here; '--label' and a text set another one."),
        "-U" => Some("'{1}' is '--uuid' here, with 'new', 'copy' or a UUID behind a space."),
        "-v" => Some("'{1}' is '--verbose' here, behind a command. The version is '-V'."),
        "-r" | "--rollback" => Some(
            "'{1}' is a command here: 'reiserconv rollback', with the path behind it.",
        ),
        "-n" | "--no-xattr" => Some(
            "There is no '{1}' here: a volume with extended attributes is refused, so that none gets lost. Leave it out.",
        ),
        "-p" | "--progress" => Some(
            "There is no '{1}' here: a terminal is told of the progress anyway. Leave it out.",
        ),
        "--no-progress" => Some(
            "There is no '{1}' here: only a terminal is told of the progress. Leave it out.",
        ),
        "-O" | "--features" => Some(
            "There is no '{1}' here: the features of the new volume can't be chosen. Leave it out.",
        ),
        "--checksum" => Some("'{1}' is '--csum' here, with crc32c or sha256 behind a space."),
        "--dry-run" => Some(
            "There is no '{1}' here: 'reiserconv inspect' only reads, and says whether a volume can be converted.",
        ),
        "-f" | "--force" | "-y" | "--yes" => Some(
            "There is no '{1}' here: what is refused can't be forced, and only a rollback asks, at a terminal alone. Leave it out.",
        ),
        "--" => Some(
            "There is no '{1}' here. A path that begins with a dash is written with './' before it.",
        ),
        "-" => Some("'{1}' is no path here: a volume is not read from standard input."),
        "-h" | "--help" | "-V" | "--version" => Some("'{1}' stands alone, without a path."),
        _ => None,
    }
}
