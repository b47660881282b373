use reiserconv_talk::is_yes;

#[test]
fn only_yes_is_yes(rt: HostRuntime) {
    for answer in ["yes\n", "Yes\n", " YES \n", "yes"] {
        assert!(rt; is_yes(answer), "{}", answer);
    }
    for answer in ["", "\n", "y\n", "no\n", "yes please\n", "yesyes\n"] {
        assert!(rt; !is_yes(answer), "{}", answer);
    }
}
