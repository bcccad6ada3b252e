// The limits of a text, each at its last good value and at the next.
use crate::texts::{HEAD, TASK, YARD, objects, tasks};
use crate::verdicts::fault;
use oil::reader::read;
use oil::table::NameRecord;
use plan::record::Plan;
use std::alloc::Global;
use std::test::Fail;

// Reads a text of a head, some objects, a part and an end.
fn inside<'a>(heap: Global, objects: &'a str, part: &'a str) -> Result<Option<(u8, usize)>, Fail> {
    let text = [HEAD, objects, part, "};"].concat(heap)?;
    Ok(fault(text.as_str()))
}

#[test]
fn priorities(rt: HostRuntime) -> Result<(), Fail> {
    let front = "TASK t{PRIORITY=";
    let back = ";SCHEDULE=FULL;ACTIVATION=1;AUTOSTART=FALSE;};";
    let cases = [
        ("63", None),
        ("64", Some(6)),
        ("000000063", None),
        ("0000000063", Some(2)),
        ("999999999", Some(6)),
    ];
    for (number, code) in cases {
        let text = [HEAD, front, number, back, "};"].concat(rt.alloc())?;
        let expected = code.map(|code| (code, HEAD.len() + front.len()));
        assert_eq!(rt; fault(text.as_str()), expected, "{}", number);
    }
    Ok(())
}

#[test]
fn counts(rt: HostRuntime) -> Result<(), Fail> {
    let heap = rt.alloc();
    let body = "{RESOURCEPROPERTY=STANDARD;};";
    let all = objects(heap, "RESOURCE", body, 32)?;
    assert_eq!(rt; inside(heap, all.as_str(), TASK)?, None);
    assert_eq!(rt;
        inside(heap, all.as_str(), "RESOURCE x{")?,
        Some((7, HEAD.len() + all.len() + 9))
    );
    assert_eq!(rt;
        inside(heap, all.as_str(), "RESOURCE RESOURCE7{")?,
        Some((5, HEAD.len() + all.len() + 9))
    );
    let all = objects(heap, "EVENT", "{MASK=AUTO;};", 32)?;
    assert_eq!(rt; inside(heap, all.as_str(), TASK)?, None);
    assert_eq!(rt;
        inside(heap, all.as_str(), "EVENT x{")?,
        Some((7, HEAD.len() + all.len() + 6))
    );
    let all = tasks(heap, 64)?;
    assert_eq!(rt; inside(heap, all.as_str(), "")?, None);
    assert_eq!(rt;
        inside(heap, all.as_str(), "TASK x{")?,
        Some((7, HEAD.len() + all.len() + 5))
    );
    Ok(())
}

#[test]
fn widths(rt: HostRuntime) -> Result<(), Fail> {
    let heap = rt.alloc();
    let name = "n".repeat(heap, 32)?;
    let event = ["EVENT ", name.as_str()].concat(heap)?;
    let longer = [event.as_str(), "n"].concat(heap)?;
    let all = [event.as_str(), "{MASK=AUTO;};", TASK].concat(heap)?;
    assert_eq!(rt; inside(heap, all.as_str(), "")?, None);
    assert_eq!(rt;
        inside(heap, longer.as_str(), "{MASK=AUTO;};")?,
        Some((2, HEAD.len() + 6))
    );
    let quoted = ["OIL_VERSION=\"", name.as_str()].concat(heap)?;
    let text = [quoted.as_str(), "\";"].concat(heap)?;
    assert_eq!(rt; fault(text.as_str()), Some((3, 12)));
    let text = [quoted.as_str(), "n\";"].concat(heap)?;
    assert_eq!(rt; fault(text.as_str()), Some((2, 12)));
    Ok(())
}

#[test]
fn lengths(rt: HostRuntime) -> Result<(), Fail> {
    let heap = rt.alloc();
    assert!(rt; YARD.len() < 32768);
    let blanks = " ".repeat(heap, 32768 - YARD.len())?;
    let text = [blanks.as_str(), YARD].concat(heap)?;
    assert_eq!(rt; text.len(), 32768);
    assert_eq!(rt; fault(text.as_str()), None);
    let text = [text.as_str(), " "].concat(heap)?;
    assert_eq!(rt; fault(text.as_str()), Some((1, 32768)));
    Ok(())
}

// A small table is refused and left as it was; a larger one is left empty, whatever the outcome.
#[test]
fn tables(rt: HostRuntime) -> Result<(), Fail> {
    let mut used = NameRecord::empty();
    used.number = 7;
    let mut plan = Plan::unfilled();
    let mut small = [used; 127];
    let refused = read(YARD.as_bytes(), &mut small, &mut plan);
    let fault = refused.err().ok_or_else(|| Fail::new("accepted"))?;
    assert_eq!(rt; fault.number(), 9);
    assert_eq!(rt; fault.place(), 0);
    assert_eq!(rt; small[126], used);
    let mut large = [used; 130];
    let refused = read(b"@", &mut large, &mut plan);
    assert!(rt; refused.is_err());
    assert_eq!(rt; large[0], NameRecord::empty());
    assert_eq!(rt; large[129], NameRecord::empty());
    let mut large = [used; 128];
    let accepted = read(YARD.as_bytes(), &mut large, &mut plan);
    assert!(rt; accepted.is_ok());
    assert_eq!(rt; large[0], NameRecord::empty());
    assert_eq!(rt; large[127], NameRecord::empty());
    assert_eq!(rt; plan.declared, 0xa4);
    Ok(())
}
