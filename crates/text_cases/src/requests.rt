// Records that spell a call, and records that spell none.
use machine::Call;
use std::alloc::Global;
use std::test::Fail;
use texts::requests::read_call;
use texts::spellings::{Unwritten, push_call};

// The vector that a record releases.
fn released(text: &[u8]) -> Option<u64> {
    match read_call(text)? {
        Call::Release(v) => Some(v),
        _ => None,
    }
}

// The record that is written for what a record spells; empty where it spells nothing.
fn rewritten(heap: Global, text: &[u8]) -> Result<Vec<u8>, Unwritten> {
    let mut out = Vec::new(heap);
    if let Some(call) = read_call(text) {
        push_call(&mut out, &call)?;
    }
    Ok(out)
}

#[test]
fn vectors_are_read(rt: HostRuntime) {
    assert_eq!(rt; released(b"release,aB"), Some(171));
    assert_eq!(rt; released(b"release,0"), Some(0));
    assert_eq!(rt; released(b"release,ffffFFFFffffFFFF"), Some(u64::MAX));
}

#[test]
fn calls_are_read_and_written(rt: HostRuntime) -> Result<(), Fail> {
    for (text, written) in [
        (b"lock,007".as_slice(), b"lock,7".as_slice()),
        (b"unlock,999", b"unlock,999"),
        (b"exit", b"exit"),
        (b"signal,3", b"signal,3"),
        (b"signal,0,aB", b"signal,0,00000000000000ab"),
        (b"signalrelease,31", b"signalrelease,31"),
        (b"signalrelease,3,1", b"signalrelease,3,0000000000000001"),
        (b"test,31", b"test,31"),
    ] {
        let out = rewritten(rt.alloc(), text)?;
        assert!(rt; out.as_slice() == written);
    }
    Ok(())
}

#[test]
fn others_are_unreadable(rt: HostRuntime) {
    for text in [
        b"".as_slice(),
        b"exit,",
        b"Exit",
        b" exit",
        b"lock",
        b"lock,",
        b"lock,1000",
        b"lock,1,2",
        b"lock,+1",
        b"release,",
        b"release,10000000000000000",
        b"release,g",
        b"test,1\r",
        b"signal,1,2,3",
        b"install",
    ] {
        assert!(rt; read_call(text).is_none());
    }
}

#[test]
fn a_long_number_has_no_record(rt: HostRuntime) {
    let mut out = Vec::new(rt.alloc());
    assert_eq!(rt;
        push_call(&mut out, &Call::Lock(1000)),
        Err(Unwritten::NoRecord)
    );
    assert!(rt; out.is_empty());
}
