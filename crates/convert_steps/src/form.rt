// What goes into each node and the superblock by the options.
ghost use Rattle.std.specs.Prelude.{◌≡◌, if◌then◌else◌};
ghost use Rattle.unit_plan.specs.convert_options.Identifier.{is_nil};
ghost use Rattle.convert_steps.specs.Making.{before_zero, ids_by, label_by, label_field};

use command_answers::Ids;
use reiser_volume::reiser_super::Super;
use unit_plan::convert_options::{LabelChoice, Options, UuidChoice, is_nil};

/// The identifiers of the converted volume: that of the file system is a new one, the old volume's if that is not nil,
/// or a given one.
pub fn ids_of(ids: &Ids, sup: &Super, options: &Options) -> Ids
    ensures { result ≡ ids_by ids.now sup.now options.now }
{
    let fsid = match options.uuid {
        UuidChoice::New => ids.fsid,
        UuidChoice::Copy => kept_or_new(sup.uuid, ids.fsid),
        UuidChoice::Given(uuid) => uuid,
    };
    Ids { fsid, ..*ids }
}

/// The identifier of the old volume, or the new one where that is nil.
fn kept_or_new(old: [u8; 16], new: [u8; 16]) -> [u8; 16]
    ensures { result ≡ (if is_nil old then new else old) }
{
    if is_nil(&old) { new } else { old }
}

/// The label of the converted volume, filled up with zeros.
pub fn label_of(sup: &Super, options: &Options) -> [u8; 256]
    ensures { result ≡ label_field (label_by sup.now options.now.label) }
{
    match &options.label {
        LabelChoice::Empty => [0; 256],
        LabelChoice::Text(label) => filled_up(label.bytes()),
        LabelChoice::Copy => filled_up(before_zero(&sup.label)),
    }
}

/// The bytes before the first zero.
fn before_zero(label: &[u8; 16]) -> &[u8]
    ensures { result.now ≡ before_zero label.now }
{
    let mut end = 0;
    while end < label.len() && label[end] != 0 {
        end += 1;
    }
    &label[..end]
}

/// The bytes, and zeros behind them. A label has fewer bytes than its field.
fn filled_up(bytes: &[u8]) -> [u8; 256]
    ensures { result ≡ label_field bytes.now }
{
    let count = bytes.len().min(256);
    let mut field = [0; 256];
    field[..count].copy_from_slice(&bytes[..count]);
    field
}
