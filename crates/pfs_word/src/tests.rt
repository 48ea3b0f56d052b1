use crate::{LAST_VERSION, LockWord, State};

#[test]
fn one_row_is_taken_published_taken_and_released(rt: HostRuntime) {
    let allocated = LockWord::new(2);
    assert!(rt; allocated.state() == State::Allocated);
    assert_eq!(rt; allocated.version(), 0);
    let dirty = allocated.to_dirty();
    assert_eq!(rt; dirty.word(), 1);
    assert!(rt; dirty.state() == State::Dirty);
    let Some(published) = dirty.to_allocated() else {
        panic!(rt; "no version is left");
    };
    assert_eq!(rt; published.word(), 6);
    assert_eq!(rt; published.version(), 1);
    let again = published.to_dirty();
    assert_eq!(rt; again.word(), 5);
    let free = again.to_free();
    assert_eq!(rt; free.word(), 4);
    assert!(rt; free.state() == State::Free);
}

#[test]
fn the_last_version_is_not_published_again(rt: HostRuntime) {
    assert_eq!(rt; LAST_VERSION, (1 << 62) - 1);
    let last = LockWord::new(u64::MAX - 2);
    assert!(rt; last.state() == State::Dirty);
    assert_eq!(rt; last.version(), LAST_VERSION);
    assert!(rt; last.to_allocated().is_none());
    assert!(rt; !LockWord::is_word(u64::MAX));
}
