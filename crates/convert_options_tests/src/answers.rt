// The lines of answers, also of those that no command of a program gives yet.
use btrfs_format::block::SUPER_INFO_OFFSET;
use command_answers::Answer;
use outside_mem::MemSink;
use program_words::{answer_status, write_answer};
use refusals::{BtrRefusal, BtrRule, Rule, VolumeRefusal};
use std::test::Fail;

#[test]
fn answers_have_lines_and_statuses(rt: HostRuntime) -> Result<(), Fail> {
    for (answer, status, line) in [
        (Answer::Fault, 3, "device fault\n"),
        (Answer::Memory, 4, "out of memory\n"),
        (
            Answer::NoSpace {
                needed: 4,
                free: 3,
                run_needed: 1,
                longest_run: 2,
            },
            6,
            "refused 15 space 4 3 1 2\n",
        ),
        (Answer::WrongFormat, 1, "refused 16 format\n"),
        (Answer::ImageMissing, 1, "refused 17 noimage\n"),
        (
            Answer::ImageMoved { block: 8212 },
            1,
            "refused 18 moved 8212\n",
        ),
        (
            Answer::ImageDamaged(VolumeRefusal::Damaged {
                block: 16,
                rule: Rule::SuperField,
            }),
            1,
            "refused 19 image 6 damaged 16 1\n",
        ),
        (
            Answer::ReservedUsed { block: 5 },
            1,
            "refused 20 reserved 5\n",
        ),
        (
            Answer::NotSound {
                part: 5,
                address: 1228800,
            },
            1,
            "refused 21 unsound 5 1228800\n",
        ),
        (
            Answer::ImageShared { tree: 257 },
            1,
            "refused 22 shared 257\n",
        ),
        (
            Answer::Btr(BtrRefusal::BadBtrfs {
                address: SUPER_INFO_OFFSET,
                rule: BtrRule::SuperCsum,
            }),
            1,
            "refused 13 badbtrfs 65536 1\n",
        ),
    ] {
        let mut err = MemSink::new(rt.alloc());
        assert_eq!(rt; write_answer(&answer, &mut err), Ok(()));
        assert!(rt; err.bytes() == line.as_bytes());
        assert_eq!(rt; answer_status(&answer), status);
    }
    Ok(())
}
