use reiserconv_words::quoted;
use std::test::Fail;

#[test]
fn a_word_is_written_as_a_shell_reads_it(rt: HostRuntime) -> Result<(), Fail> {
    for (word, text) in [
        ("", "''"),
        ("/dev/sda1", "/dev/sda1"),
        ("my disk's", "my\\ disk\\'s"),
        ("a\nb\x1b", "a$'\\u000a'b$'\\u001b'"),
        ("gr\u{f6}\u{df}e", "gr\u{f6}\u{df}e"),
    ] {
        let found = quoted(rt.alloc(), word)?;
        assert_eq!(rt; found.as_str(), text);
    }
    Ok(())
}
