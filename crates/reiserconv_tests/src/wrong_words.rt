use reiserconv_talk::Paragraph;
use reiserconv_words::find;
use std::process::Abort;
use std::test::Fail;

/// What is found wrong with words that stand with spaces between them, in one line. The word `folder` is the path of one.
fn found(rt: &impl AllocGlobal, line: &str) -> Result<String, Fail> {
    let mut words = Vec::new(rt.alloc());
    for word in line.split(' ') {
        words.push(String::from_str(rt.alloc(), word)?)?;
    }
    let mut text = Paragraph::new(rt.alloc(), "");
    if let Some(finding) = find(rt.alloc(), words.as_slice(), Some("folder"))? {
        let parts = [finding.first.as_str(), finding.second.as_str()];
        text.say(finding.sentence, &parts)?;
    }
    let mut said = String::new(rt.alloc());
    for line in text.into_text().as_str().lines() {
        said.push_str(line)?;
        said.push_str(" ")?;
    }
    Ok(said)
}

/// Each of the words has this behind it.
fn finds(rt: &(impl Abort + AllocGlobal), cases: &[(&str, &str)]) -> Result<(), Fail> {
    for (words, text) in cases {
        let said = found(rt, *words)?;
        assert!(rt; said.as_str().contains(*text), "{}", said.as_str());
    }
    Ok(())
}

#[test]
fn a_first_word_is_a_command(rt: HostRuntime) -> Result<(), Fail> {
    finds(
        &rt,
        &[
            ("convertt x", "Did you mean 'convert'?"),
            ("frobnicate x", "'frobnicate' is no command: there are"),
            ("/dev/sda1", "'reiserconv inspect /dev/sda1'"),
            ("--uuid new convert", "before the options, and '--uuid'"),
            ("help", "'help' is '--help' here."),
        ],
    )
}

#[test]
fn options_have_their_place_and_form(rt: HostRuntime) -> Result<(), Fail> {
    finds(
        &rt,
        &[
            ("convert x --no-inline", "'--no-inline' stands behind"),
            ("convert --label=a x", "write '--label a'."),
            ("convert --no-inline=a x", "'--no-inline' takes no value."),
            ("trial 7 --verbose x", "'--verbose' stands behind the"),
            ("convert --no-inlin x", "Did you mean '--no-inline'?"),
            ("convert -L x", "'-L' is '--copy-label' here;"),
            ("list --no-inline x", "'list' has no option '--no-inline'."),
            ("convert --label a --copy-label x", "can't stand beside"),
            ("convert --label a --label b x", "'--label' is given twice."),
            ("convert --frobnicate x", "write './--frobnicate'"),
            ("trial -1 x", "'-1' is no number of files: it goes from 0"),
        ],
    )
}

#[test]
fn values_are_in_their_range(rt: HostRuntime) -> Result<(), Fail> {
    finds(
        &rt,
        &[
            ("convert --nodesize 16K x", "write '--nodesize 16384'"),
            ("convert --nodesize 5 x", "'5' is no size of a node"),
            ("convert --uuid foo x", "'foo' is no UUID"),
            ("convert --csum 7 x", "'7' is no kind of checksum"),
            ("convert --csum xxhash x", "no checksums by 'xxhash'"),
            ("inspect --csum SHA256 x", "write '--csum sha256'"),
            ("convert --csum --no-inline x", "crc32c or sha256."),
            (
                "convert --uuid 00000000-0000-0000-0000-000000000000 x",
                "A UUID of zeros names",
            ),
            ("convert --uuid", "A value is missing behind '--uuid'."),
            ("trial 4001 x", "'4001' is no number of files"),
            ("trial x", "'reiserconv trial 1000 x'"),
            ("trial abc x", "'reiserconv trial 1000 x'"),
            ("trial x 5", "'reiserconv trial 5 x'"),
            ("trial x 4001", "'reiserconv trial 1000 4001'"),
            ("trial folder 5", "trial 5 folder/scratch.img'"),
            ("trial folder", "trial 1000 folder/scratch.img'"),
            ("trial x folder", "trial 1000 folder/scratch.img'"),
        ],
    )
}

#[test]
fn there_is_one_path(rt: HostRuntime) -> Result<(), Fail> {
    finds(
        &rt,
        &[
            ("inspect", "The path is missing behind 'inspect'"),
            ("inspect a b", "'b' is a word too many"),
            ("trial 5", "The path is missing behind the number"),
            ("convert --label disk", "'disk' is the value of '--label'"),
            ("inspect ", "The path is empty."),
        ],
    )
}

#[test]
fn nothing_is_found_where_nothing_is_wrong(rt: HostRuntime) -> Result<(), Fail> {
    for words in [
        "inspect --nodesize 4096 x",
        "convert --label -x --uuid copy x",
        "convert --csum sha256 --no-inline x",
        "trial --verbose 7 x",
    ] {
        let said = found(&rt, words)?;
        assert_eq!(rt; said.as_str(), "");
    }
    Ok(())
}
