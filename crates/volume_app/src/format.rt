ghost use Rattle.std.specs.Prelude.{◌≡◌, None, IfOk, OnOk, IsTrue};
ghost use Rattle.reiser_volume.specs.outside.Fault.{HasCause};
ghost use Rattle.reiser_volume.specs.outside.History.{reads};
ghost use Rattle.convert_core.specs.convert_steps.Found.{IsFoundOn};

use convert_core::{FormatFound, find_format};
use reiser_volume::{Access, Disk, Fault};

/// Opens the disk at a path for reading, and finds the format of its volume.
pub fn open_format<D: Disk>(path: &str, disk: &mut D) -> Result<FormatFound, Fault>
    requires closed { D.opened disk.old ≡ None }
    requires wanted { D.wants path.now Access.Read }
    ensures unchanged { IsTrue D.tells → D.history disk.new ≡ D.history disk.old }
    ensures blocks { IsTrue D.tells → OnOk result (D.blocks disk.new ≡ reads (D.history disk.old)) }
    ensures found { IsTrue D.tells → IfOk result (IsFoundOn (reads (D.history disk.old))) }
    ensures cause { HasCause (D.faults disk.old) (D.faults disk.new) result }
{
    disk.open(path, Access::Read)?;
    find_format(disk)
}
