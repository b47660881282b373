// Laws of the definitions, each the contract of a function that does nothing.
ghost use Rattle.trial_core.specs.Laws.{TriesKeep};

use convert_core_laws::converted_volumes_go_back;
use reiser_make_laws::samples_are_as_described;
use rollback_core::rollback_keeps;

/// What a trial leaves is the sample volume of its number, accepted and with its rows; and where it stood as a Btrfs volume in between, it
/// was read so.
pub fn tries_keep()
    ensures { TriesKeep }
{
    converted_volumes_go_back();
    rollback_keeps();
    samples_are_as_described();
}
