use reiserconv_talk::{Counted, Paragraph, Recount, Space};
use reiserconv_words::{Change, Choice, Wanted};
use std::process::Abort;
use std::test::Fail;

const PRINTED: &str =
    "format reiserfs\nblocks 9216\nlabel units\\x209\nused 8211\nunits 3\nneeded 4\nrun 1\n";

/// What is told of a volume at `/dev/sda1` where it was asked for by these words before the path, in one line.
fn told(
    rt: &impl AllocGlobal,
    space: &Space,
    asked: &str,
    again: Option<&Recount>,
) -> Result<String, Fail> {
    let mut words = Vec::new(rt.alloc());
    for word in asked.split(' ') {
        words.push(String::from_str(rt.alloc(), word)?)?;
    }
    words.push(String::from_str(rt.alloc(), "/dev/sda1")?)?;
    let mut text = Paragraph::new(rt.alloc(), "/dev/sda1");
    space.tell(rt.alloc(), &mut text, Wanted::new(&words), again)?;
    let mut said = String::new(rt.alloc());
    for line in text.into_text().as_str().lines() {
        said.push_str(line)?;
        said.push_str(" ")?;
    }
    Ok(said)
}

/// A volume of which so many units are free, and so many needed.
fn space(units: u64, needed: u64) -> Space {
    Space {
        units,
        needed,
        run: 1,
        longest: None,
    }
}

/// What was counted with nodes of 8192 bytes, and without `--no-inline`, with so many units that are needed.
fn recount(units: u64, sized: u64, without: u64) -> Recount {
    Recount {
        sized: Some(Counted {
            change: Change::Size("8192"),
            space: space(units, sized),
        }),
        without: Some(Counted {
            change: Change::Without(Choice::NoInline),
            space: space(units, without),
        }),
    }
}

/// What is told has each of these parts.
fn has(rt: &(impl Abort + AllocGlobal), said: &String, parts: &[&str]) {
    for part in parts {
        assert!(rt; said.as_str().contains(*part), "{}", said.as_str());
    }
}

#[test]
fn a_unit_is_missing(rt: HostRuntime) -> Result<(), Fail> {
    let space = Space::printed(PRINTED).ok_or("no space")?;
    let asked = "convert --nodesize 4096 --label a --no-inline";
    let said = told(&rt, &space, asked, None)?;
    has(
        &rt,
        &said,
        &[
            "4 units of 1 MiB are needed, and 3 are free as a whole, which is 1 too few.",
            "in Linux 6.12 or earlier, which has ReiserFS, and remove large files",
            "until 1 MiB more is free as a whole, better 17,",
            "larger by 17 MiB",
            "'resize_reiserfs -f /dev/sda1'",
            "'reiserconv inspect --nodesize 8192 --no-inline /dev/sda1' tells how much, and so does the same with 16384. If nodes of 8192 bytes suffice, 'reiserconv convert --nodesize 8192 --label a --no-inline /dev/sda1' converts it.",
            "Without '--no-inline' it may need less: 'reiserconv inspect --nodesize 4096 /dev/sda1' tells how much. If that suffices, 'reiserconv convert --nodesize 4096 --label a /dev/sda1' converts it.",
        ],
    );
    Ok(())
}

#[test]
fn checksums_by_another_kind(rt: HostRuntime) -> Result<(), Fail> {
    let asked = "inspect --verbose --csum sha256";
    let said = told(&rt, &space(30, 5), asked, None)?;
    has(
        &rt,
        &said,
        &[
            "and so 25 are to spare. This command does it: 'reiserconv convert --csum sha256 /dev/sda1'. ",
        ],
    );
    let said = told(&rt, &space(30, 31), asked, None)?;
    has(
        &rt,
        &said,
        &[
            "'reiserconv inspect --nodesize 4096 --csum sha256 /dev/sda1' tells",
            "Or leave '--csum sha256' out: checksums by CRC-32C take some 7 MiB less for each GiB in use. ",
        ],
    );
    let asked = "inspect --csum sha256 --no-datasum";
    let said = told(&rt, &space(30, 31), asked, None)?;
    assert!(rt; !said.as_str().contains("CRC-32C"), "{}", said.as_str());
    Ok(())
}

#[test]
fn a_row_is_missing(rt: HostRuntime) -> Result<(), Fail> {
    let space = Space::refused(&["20", "30", "5", "4"]).ok_or("no space")?;
    let said = told(&rt, &space, "convert", None)?;
    has(
        &rt,
        &said,
        &["and remove a large file or move it away, until 5 MiB are free in one row."],
    );
    assert!(rt; Space::refused(&["20", "30", "5"]).is_none());
    Ok(())
}

#[test]
fn nodes_of_another_size(rt: HostRuntime) -> Result<(), Fail> {
    let asked = "inspect --no-datasum --no-inline";
    let said = told(&rt, &space(3, 4), asked, Some(&recount(3, 3, 4)))?;
    has(
        &rt,
        &said,
        &[
            "Or take nodes of 8192 bytes, which need 3 units, so that none is to spare: 'reiserconv convert --nodesize 8192 --no-datasum --no-inline /dev/sda1'. Linux takes",
        ],
    );
    assert!(rt; !said.as_str().contains("leave '--no-inline' out"));
    let said = told(&rt, &space(1, 4), asked, Some(&recount(1, 3, 4)))?;
    has(
        &rt,
        &said,
        &["3 ('--nodesize 8192'), which alone does not suffice. "],
    );
    let said = told(&rt, &space(3, 4), asked, Some(&recount(3, 4, 4)))?;
    assert!(rt;
        said.as_str()
            .ends_with("Nodes of 4096 or 8192 bytes need no fewer units. "),
        "{}",
        said.as_str()
    );
    Ok(())
}

#[test]
fn without_an_option(rt: HostRuntime) -> Result<(), Fail> {
    let asked = "inspect --no-inline --csum sha256 --nodesize 65536";
    let said = told(&rt, &space(3, 4), asked, Some(&recount(3, 4, 2)))?;
    has(
        &rt,
        &said,
        &[
            "Nodes of 4096 or 8192 bytes need no fewer units.",
            "Or leave '--no-inline' out: then 2 units are needed, so that 1 is to spare: 'reiserconv convert --csum sha256 --nodesize 65536 /dev/sda1'. Linux takes",
        ],
    );
    let said = told(&rt, &space(2, 4), asked, Some(&recount(2, 4, 3)))?;
    has(
        &rt,
        &said,
        &["Without '--no-inline' fewer units are needed, 3, which alone does not suffice."],
    );
    Ok(())
}

#[test]
fn the_space_suffices(rt: HostRuntime) -> Result<(), Fail> {
    let said = told(&rt, &space(36, 20), "inspect --verbose", None)?;
    assert!(rt;
        said.as_str().ends_with(
            "and so 16 are to spare. This command does it: 'reiserconv convert /dev/sda1'. "
        ),
        "{}",
        said.as_str()
    );
    let said = told(&rt, &space(21, 20), "inspect --nodesize 4096", None)?;
    has(
        &rt,
        &said,
        &[
            "and so 1 is to spare. This command does it: 'reiserconv convert --nodesize 4096 /dev/sda1'. Linux takes",
            "have 16 to spare",
        ],
    );
    let said = told(&rt, &space(20, 20), "inspect", None)?;
    has(&rt, &said, &["and so none is to spare. This command"]);
    Ok(())
}
