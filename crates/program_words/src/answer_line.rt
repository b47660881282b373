ghost use Rattle.std.specs.Prelude.{◌≡◌, ◌++◌, ◌∷◌, [], IsTrue, codes, decimal};
ghost use Rattle.command_answers.specs.outside.Fault.{HasCause, Takes};
ghost use Rattle.program_words.specs.Lines.{answer_line, answer_status, words_to_end, volume_words, btr_words, feature_number, rule_number, btr_rule_number};

use command_answers::{Answer, BtrRefusal, BtrRule, Fault, Feature, Rule, Sink, VolumeRefusal};
use sink_text::TextPart::{Decimal, Plain};
use sink_text::write_pieces;

/// Writes the line of an answer: what failed, or `refused` with the words of the refusal.
pub fn write_answer<E: Sink>(answer: &Answer, err: &mut E) -> Result<(), Fault>
    ensures taken { IsTrue E.tells → Takes (E.taken err.old) (answer_line answer.now) result (E.taken err.new) }
    ensures cause { HasCause (E.faults err.old) (E.faults err.new) result }
{
    match answer {
        Answer::Volume(refusal) => write_refused(b"refused", refusal, err),
        Answer::Btr(refusal) => write_btr_refused(refusal, err),
        Answer::NoSpace {
            needed,
            free,
            run_needed,
            longest_run,
        } => write_pieces(
            &[
                Plain(b"refused 15 space "),
                Decimal(*needed),
                Plain(b" "),
                Decimal(*free),
                Plain(b" "),
                Decimal(*run_needed),
                Plain(b" "),
                Decimal(*longest_run),
                Plain(b"\n"),
            ],
            err,
        ),
        Answer::WrongFormat => err.write(b"refused 16 format\n"),
        Answer::ImageMissing => err.write(b"refused 17 noimage\n"),
        Answer::ImageMoved { block } => write_pieces(
            &[Plain(b"refused 18 moved "), Decimal(*block), Plain(b"\n")],
            err,
        ),
        Answer::ImageDamaged(refusal) => write_refused(b"refused 19 image", refusal, err),
        Answer::ReservedUsed { block } => write_pieces(
            &[
                Plain(b"refused 20 reserved "),
                Decimal(*block),
                Plain(b"\n"),
            ],
            err,
        ),
        Answer::NotSound { part, address } => write_pieces(
            &[
                Plain(b"refused 21 unsound "),
                Decimal(u64::from(*part)),
                Plain(b" "),
                Decimal(*address),
                Plain(b"\n"),
            ],
            err,
        ),
        Answer::ImageShared { tree } => write_pieces(
            &[Plain(b"refused 22 shared "), Decimal(*tree), Plain(b"\n")],
            err,
        ),
        Answer::Fault => err.write(b"device fault\n"),
        Answer::Memory => err.write(b"out of memory\n"),
    }
}

/// The status of a program that was not done for this cause: 3 for a device fault, 4 for want of memory, 6 for too little room,
/// and 1 for each refusal.
pub fn answer_status(answer: &Answer) -> u8
    ensures { result ≡ answer_status answer.now }
{
    match answer {
        Answer::Fault => 3,
        Answer::Memory => 4,
        Answer::NoSpace { .. } => 6,
        _ => 1,
    }
}

/// Writes a first part, the words of a refusal of a ReiserFS volume, and a line feed.
fn write_refused<E: Sink>(first: &[u8], refusal: &VolumeRefusal, err: &mut E) -> Result<(), Fault>
    ensures taken { IsTrue E.tells → Takes (E.taken err.old) (first.now ++ words_to_end (volume_words refusal.now)) result (E.taken err.new) }
    ensures cause { HasCause (E.faults err.old) (E.faults err.new) result }
{
    match *refusal {
        VolumeRefusal::NotVolume => write_pieces(&[Plain(first), Plain(b" 1 novolume\n")], err),
        VolumeRefusal::Unclean { state } => write_one(first, b" 2 unclean", u64::from(state), err),
        VolumeRefusal::Unsupported { feature, value } => write_two(
            first,
            b" 3 unsupported",
            feature_number(feature),
            value,
            err,
        ),
        VolumeRefusal::Short { volume, device } => write_two(
            first,
            b" 4 short",
            volume,
            device,
            err,
        ),
        VolumeRefusal::JournalPending { trans } => write_one(
            first,
            b" 5 journal",
            u64::from(trans),
            err,
        ),
        VolumeRefusal::Damaged { block, rule } => write_two(
            first,
            b" 6 damaged",
            block,
            rule_number(rule),
            err,
        ),
        VolumeRefusal::HasAttributes { dir, object } => write_two(
            first,
            b" 7 attributes",
            u64::from(dir),
            u64::from(object),
            err,
        ),
        VolumeRefusal::PendingLinks { object } => write_one(
            first,
            b" 8 links",
            u64::from(object),
            err,
        ),
        VolumeRefusal::NameTaken { dir, object } => write_two(
            first,
            b" 9 taken",
            u64::from(dir),
            u64::from(object),
            err,
        ),
        VolumeRefusal::NameTooLong {
            dir,
            object,
            length,
        } => write_three(
            first,
            b" 10 long",
            u64::from(dir),
            u64::from(object),
            length,
            err,
        ),
        VolumeRefusal::HashCrowd { dir, object, hash } => write_three(
            first,
            b" 11 crowd",
            u64::from(dir),
            u64::from(object),
            u64::from(hash),
            err,
        ),
    }
}

/// Writes the refusal of a Btrfs volume.
fn write_btr_refused<E: Sink>(refusal: &BtrRefusal, err: &mut E) -> Result<(), Fault>
    ensures taken { IsTrue E.tells → Takes (E.taken err.old) (codes "refused" ++ words_to_end (btr_words refusal.now)) result (E.taken err.new) }
    ensures cause { HasCause (E.faults err.old) (E.faults err.new) result }
{
    let first = b"refused";
    match *refusal {
        BtrRefusal::BadBtrfs { address, rule } => write_two(
            first,
            b" 13 badbtrfs",
            address,
            btr_rule_number(rule),
            err,
        ),
        BtrRefusal::LogPending { address } => write_one(first, b" 14 log", address, err),
        BtrRefusal::Unsupported { feature, value } => write_two(
            first,
            b" 3 unsupported",
            feature_number(feature),
            value,
            err,
        ),
    }
}

fn write_one<'a, E: Sink>(first: &'a [u8], name: &'a [u8], a: u64, err: &mut E) -> Result<(), Fault>
    ensures taken { IsTrue E.tells → Takes (E.taken err.old) (first.now ++ (name.now ++ words_to_end (decimal a ∷ []))) result (E.taken err.new) }
    ensures cause { HasCause (E.faults err.old) (E.faults err.new) result }
{
    let pieces = [
        Plain(first),
        Plain(name),
        Plain(b" "),
        Decimal(a),
        Plain(b"\n"),
    ];
    write_pieces(&pieces, err)
}

fn write_two<'a, E: Sink>(
    first: &'a [u8],
    name: &'a [u8],
    a: u64,
    b: u64,
    err: &mut E,
) -> Result<(), Fault>
    ensures taken { IsTrue E.tells → Takes (E.taken err.old) (first.now ++ (name.now ++ words_to_end (decimal a ∷ decimal b ∷ []))) result (E.taken err.new) }
    ensures cause { HasCause (E.faults err.old) (E.faults err.new) result }
{
    let pieces = [
        Plain(first),
        Plain(name),
        Plain(b" "),
        Decimal(a),
        Plain(b" "),
        Decimal(b),
        Plain(b"\n"),
    ];
    write_pieces(&pieces, err)
}

fn write_three<'a, E: Sink>(
    first: &'a [u8],
    name: &'a [u8],
    a: u64,
    b: u64,
    c: u64,
    err: &mut E,
) -> Result<(), Fault>
    ensures taken { IsTrue E.tells → Takes (E.taken err.old) (first.now ++ (name.now ++ words_to_end (decimal a ∷ decimal b ∷ decimal c ∷ []))) result (E.taken err.new) }
    ensures cause { HasCause (E.faults err.old) (E.faults err.new) result }
{
    let pieces = [
        Plain(first),
        Plain(name),
        Plain(b" "),
        Decimal(a),
        Plain(b" "),
        Decimal(b),
        Plain(b" "),
        Decimal(c),
        Plain(b"\n"),
    ];
    write_pieces(&pieces, err)
}

fn feature_number(feature: Feature) -> u64
    ensures { result ≡ feature_number feature }
{
    feature as u64
}

fn rule_number(rule: Rule) -> u64
    ensures { result ≡ rule_number rule }
{
    rule as u64
}

fn btr_rule_number(rule: BtrRule) -> u64
    ensures { result ≡ btr_rule_number rule }
{
    rule as u64
}
