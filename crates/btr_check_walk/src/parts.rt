// The parts of what a sound volume is.
ghost use Rattle.std.specs.Prelude.{◌≡◌, ℕ, true, false, Some, None, IfErr, OnOk};
ghost use Rattle.btr_check_rules.specs.Sound.{part_number};
ghost use Rattle.btr_check_walk.specs.Parts.{part_value};
ghost use Rattle.command_answers.specs.declared.answer.Answer.TheVariants as answers;

use command_answers::Answer;

/// The parts of what a sound volume is, in the order of their numbers.
#[derive(Clone, Copy, Debug, PartialEq, Eq)]
pub enum SoundPart {
    Trees,
    Files,
    References,
    Placement,
    Checksums,
    BlockGroups,
    Chunks,
    Reserved,
    Totals,
    FreeSpace,
}

impl SoundPart {
    /// The number by which an answer tells a part: 1 to 10.
    pub fn number(self) -> u8
        ensures { result ≡ part_number (part_value self) }
    {
        match self {
            SoundPart::Trees => 1,
            SoundPart::Files => 2,
            SoundPart::References => 3,
            SoundPart::Placement => 4,
            SoundPart::Checksums => 5,
            SoundPart::BlockGroups => 6,
            SoundPart::Chunks => 7,
            SoundPart::Reserved => 8,
            SoundPart::Totals => 9,
            SoundPart::FreeSpace => 10,
        }
    }

    /// The answer that this part fails at an address: a place in bytes, or the number of an inode or a tree where the
    /// part has no place.
    pub fn fails_at(self, address: u64) -> Answer
        ensures { result ≡ answers.NotSound (part_number (part_value self)) address }
    {
        Answer::NotSound {
            part: self.number(),
            address,
        }
    }

    /// Goes on where a rule of this part is kept at an address; else answers [`Answer::NotSound`].
    pub fn ask(self, kept: bool, address: u64) -> Result<(), Answer>
        ensures ok { OnOk result (kept ≡ true) }
        ensures err { IfErr result (λ e. (kept ≡ false) × (e ≡ answers.NotSound (part_number (part_value self)) address)) }
    {
        if kept {
            Ok(())
        } else {
            Err(self.fails_at(address))
        }
    }

    /// Goes on where no address was found at which this part fails; else answers [`Answer::NotSound`].
    pub fn ask_none(self, found: Option<u64>) -> Result<(), Answer>
        ensures ok { OnOk result (found ≡ None) }
        ensures err { IfErr result (λ e. (address : ℕ) × (found ≡ Some address) × (e ≡ answers.NotSound (part_number (part_value self)) address)) }
    {
        match found {
            Some(address) => Err(self.fails_at(address)),
            None => Ok(()),
        }
    }
}
