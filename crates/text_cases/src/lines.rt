// Lines with every field, and with the fewest.
use machine::Refusal;
use std::test::Fail;
use texts::lines::push_line;
use texts::outcomes::{Outcome, Report};

#[test]
fn full_and_empty_fields(rt: HostRuntime) -> Result<(), Fail> {
    let mut out = Vec::new(rt.alloc());
    let full = Report {
        outcome: Outcome::Accepted,
        running: Some(63),
        waiting: u64::MAX,
        ceiling: Some(0),
        mark: Some(true),
    };
    push_line(&mut out, 1_000_000, &full)?;
    let refused = Report {
        outcome: Outcome::Refused(Refusal::StillHolding),
        running: None,
        waiting: 32,
        ceiling: None,
        mark: None,
    };
    push_line(&mut out, 9, &refused)?;
    assert!(rt;
        out.as_slice()
            == b"1000000,0,63,ffffffffffffffff,0,1\r\n9,21,,0000000000000020,,\r\n".as_slice()
    );
    Ok(())
}
