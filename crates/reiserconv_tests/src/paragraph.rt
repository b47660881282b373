use reiserconv_talk::Paragraph;
use std::test::Fail;

/// What is said with this path and these parts.
fn said(rt: &impl AllocGlobal, path: &str, words: &str, parts: &[&str]) -> Result<String, Fail> {
    let mut text = Paragraph::new(rt.alloc(), path);
    text.say(words, parts)?;
    text.end()?;
    Ok(text.into_text())
}

#[test]
fn a_number_has_its_words(rt: HostRuntime) -> Result<(), Fail> {
    let words = "There {1:is:are} {1} {1:file:files}.";
    for (number, text) in [
        ("0", "There are 0 files.\n"),
        ("1", "There is 1 file.\n"),
        ("11", "There are 11 files.\n"),
    ] {
        let found = said(&rt, "", words, &[number])?;
        assert_eq!(rt; found.as_str(), text);
    }
    Ok(())
}

#[test]
fn a_command_on_a_plain_path_stands_between_quotes(rt: HostRuntime) -> Result<(), Fail> {
    let found = said(
        &rt,
        "/dev/sda1",
        "Wipe it ('wipefs -a {path}'), or say '{1}'.",
        &["no"],
    )?;
    assert_eq!(rt;
        found.as_str(),
        "Wipe it ('wipefs -a /dev/sda1'), or say 'no'.\n"
    );
    Ok(())
}

#[test]
fn a_command_on_another_path_stands_alone(rt: HostRuntime) -> Result<(), Fail> {
    let found = said(
        &rt,
        "my\\ disk\\'s",
        "{path}: can't be read. Wipe it ('wipefs -a {path}'), don't use 'lsblk' or '{1}'. So it's done.",
        &["a\\ b"],
    )?;
    assert_eq!(rt;
        found.as_str(),
        "my\\ disk\\'s: can't be read. Wipe it\n    wipefs -a my\\ disk\\'s\ndon't use 'lsblk' or\n    a\\ b\nSo it's done.\n"
    );
    Ok(())
}
