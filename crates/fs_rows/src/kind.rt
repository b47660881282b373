// What a row has by its kind.
ghost use Rattle.std.specs.Prelude.{◌≡◌, if◌then◌else◌};
ghost use Rattle.fs_rows.specs.Kinds.{is_directory, is_file, is_symlink, is_device, has_bytes};

use crate::Kind;

impl Kind {
    /// Whether it is a directory.
    pub fn is_directory(self) -> bool
        ensures { result ≡ is_directory self }
    {
        matches!(self, Kind::Directory)
    }

    /// Whether it is a regular file.
    pub fn is_file(self) -> bool
        ensures { result ≡ is_file self }
    {
        matches!(self, Kind::File)
    }

    /// Whether it is a symbolic link.
    pub fn is_symlink(self) -> bool
        ensures { result ≡ is_symlink self }
    {
        matches!(self, Kind::Symlink)
    }

    /// Whether it is a device, which has a major and a minor number.
    pub fn is_device(self) -> bool
        ensures { result ≡ is_device self }
    {
        matches!(self, Kind::Character | Kind::Block)
    }

    /// Whether it has bytes: those of a file, or the target of a symlink.
    pub fn has_bytes(self) -> bool
        ensures { result ≡ has_bytes self }
    {
        matches!(self, Kind::File | Kind::Symlink)
    }

    /// How many names a row of this kind tells of: of an object with so many names as many, and of a directory 0.
    pub fn told_names(self, names: u64) -> u64
        ensures { result ≡ (if is_directory self then 0 else names) }
    {
        if self.is_directory() { 0 } else { names }
    }
}
