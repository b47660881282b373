use reiserconv_talk::{Counted, Recount, Space, changes};
use reiserconv_words::{Change, Choice, Wanted};
use std::test::Fail;

/// How many sizes of nodes are looked at for some words, and how many options that are left out.
fn looked_at(rt: &impl AllocGlobal, words: &str) -> Result<(usize, usize), Fail> {
    let mut given = Vec::new(rt.alloc());
    for word in words.split(' ') {
        given.push(String::from_str(rt.alloc(), word)?)?;
    }
    let mut counts = (0_usize, 0_usize);
    for change in &changes(rt.alloc(), Wanted::new(given.as_slice()))? {
        match change {
            Change::Size(_) => counts.0 = counts.0.saturating_add(1),
            Change::Without(_) => counts.1 = counts.1.saturating_add(1),
        }
    }
    Ok(counts)
}

#[test]
fn what_is_looked_at(rt: HostRuntime) -> Result<(), Fail> {
    assert_eq!(rt; looked_at(&rt, "inspect disk")?, (2, 0));
    assert_eq!(rt; looked_at(&rt, "inspect --nodesize 65536 disk")?, (3, 0));
    assert_eq!(rt;
        looked_at(&rt, "inspect --no-inline --nodesize 4096 disk")?,
        (2, 1)
    );
    Ok(())
}

/// A count in which 5 units are free.
fn counted(change: Change, needed: u64) -> Counted {
    Counted {
        change,
        space: Space {
            units: 5,
            needed,
            run: 1,
            longest: None,
        },
    }
}

/// What is kept of these counts.
fn kept(counts: &[Counted]) -> Recount {
    let mut found = Recount::new();
    for count in counts {
        found.add(*count);
    }
    found
}

#[test]
fn the_better_count(rt: HostRuntime) {
    let small = Change::Size("4096");
    let large = Change::Size("8192");
    let first = counted(small, 7);
    assert_eq!(rt; kept(&[first]).sized, Some(first));
    assert_eq!(rt; kept(&[first, counted(large, 7)]).sized, Some(first));
    let better = counted(large, 6);
    assert_eq!(rt; kept(&[first, better]).sized, Some(better));
    let without = counted(Change::Without(Choice::NoInline), 3);
    assert_eq!(rt; kept(&[counted(small, 4), without]).without, Some(without));
}
