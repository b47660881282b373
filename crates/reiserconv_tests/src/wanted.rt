use reiserconv_words::{Change, Choice, Verb, Wanted};
use std::test::Fail;

/// The command that asks for the same as words with spaces between them, in which a tilde stands for a space of a word.
fn command(
    rt: &impl AllocGlobal,
    words: &str,
    verb: Verb,
    change: Option<Change>,
) -> Result<String, Fail> {
    let mut given = Vec::new(rt.alloc());
    for word in words.split(' ') {
        let mut text = String::new(rt.alloc());
        for c in word.chars() {
            text.push(if c == '~' { ' ' } else { c })?;
        }
        given.push(text)?;
    }
    Ok(Wanted::new(given.as_slice()).command(rt.alloc(), verb, change)?)
}

#[test]
fn a_command_has_the_options_that_were_given(rt: HostRuntime) -> Result<(), Fail> {
    for (words, line) in [
        ("inspect disk", "reiserconv convert disk"),
        (
            "inspect --no-inline --verbose --csum sha256 --no-datasum my~disk",
            "reiserconv convert --no-inline --csum sha256 --no-datasum my\\ disk",
        ),
        (
            "convert --label --verbose --uuid copy disk",
            "reiserconv convert --label --verbose --uuid copy disk",
        ),
        (
            "convert --label it's~mine --copy-label disk",
            "reiserconv convert --label it\\'s\\ mine --copy-label disk",
        ),
    ] {
        let found = command(&rt, words, Verb::Convert, None)?;
        assert_eq!(rt; found.as_str(), line);
    }
    Ok(())
}

#[test]
fn a_command_has_what_is_changed(rt: HostRuntime) -> Result<(), Fail> {
    let words =
        "convert --label --nodesize --nodesize 65536 --csum sha256 --no-inline --uuid new disk";
    for (verb, change, line) in [
        (
            Verb::Convert,
            Change::Size("4096"),
            "reiserconv convert --nodesize 4096 --label --nodesize --csum sha256 --no-inline --uuid new disk",
        ),
        (
            Verb::Inspect,
            Change::Size("8192"),
            "reiserconv inspect --nodesize 8192 --csum sha256 --no-inline disk",
        ),
        (
            Verb::Inspect,
            Change::Without(Choice::NoInline),
            "reiserconv inspect --nodesize 65536 --csum sha256 disk",
        ),
        (
            Verb::Inspect,
            Change::Without(Choice::Csum),
            "reiserconv inspect --nodesize 65536 --no-inline disk",
        ),
    ] {
        let found = command(&rt, words, verb, Some(change))?;
        assert_eq!(rt; found.as_str(), line);
    }
    Ok(())
}

/// The size of nodes of some words, and whether files and checksums are otherwise than usual.
fn settings(rt: &impl AllocGlobal, words: &str) -> Result<(String, bool, bool), Fail> {
    let mut given = Vec::new(rt.alloc());
    for word in words.split(' ') {
        given.push(String::from_str(rt.alloc(), word)?)?;
    }
    let wanted = Wanted::new(given.as_slice());
    let size = String::from_str(rt.alloc(), wanted.size())?;
    Ok((size, wanted.has(Choice::NoInline), wanted.is_hashed()))
}

#[test]
fn what_was_asked_for(rt: HostRuntime) -> Result<(), Fail> {
    for (words, size, no_inline, is_hashed) in [
        ("inspect disk", "16384", false, false),
        (
            "inspect --nodesize 4096 --no-inline disk",
            "4096",
            true,
            false,
        ),
        (
            "convert --label --no-inline --csum sha256 disk",
            "16384",
            false,
            true,
        ),
        (
            "inspect --csum crc32c --nodesize 8192 --nodesize",
            "8192",
            false,
            false,
        ),
    ] {
        let found = settings(&rt, words)?;
        assert_eq!(rt; found.0.as_str(), size);
        assert_eq!(rt; found.1, no_inline);
        assert_eq!(rt; found.2, is_hashed);
    }
    Ok(())
}
