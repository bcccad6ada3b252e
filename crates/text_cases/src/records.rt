// Inputs with each kind of line end.
use std::test::Fail;
use texts::records::cut_record;

#[test]
fn line_ends_are_mixed(rt: HostRuntime) -> Result<(), Fail> {
    let (first, rest) = cut_record(b"exit\r\n\nlock,1\r").ok_or("first")?;
    assert!(rt; first == b"exit".as_slice());
    let (second, rest) = cut_record(rest).ok_or("second")?;
    assert!(rt; second.is_empty());
    let (third, rest) = cut_record(rest).ok_or("third")?;
    assert!(rt; third == b"lock,1\r".as_slice());
    assert!(rt; cut_record(rest).is_none());
    Ok(())
}

#[test]
fn nothing_follows_the_last_line_end(rt: HostRuntime) -> Result<(), Fail> {
    let (only, rest) = cut_record(b"exit\n").ok_or("only")?;
    assert!(rt; only == b"exit".as_slice());
    assert!(rt; cut_record(rest).is_none());
    assert!(rt; cut_record(b"").is_none());
    Ok(())
}
