// Accepted texts with their plans, and each fault at its place.
use crate::texts::{HEAD, TASK, YARD};
use oil::fault::{Layer, PlanFault};
use oil::reader::read;
use oil::table::NameRecord;
use plan::record::Plan;
use std::test::Fail;

// Reads a text with a new table and a new plan. The programs have these lines too, in a crate that lies above: these
// cases stand on the reader alone.
pub(crate) fn verdict(text: &str) -> Result<Plan, PlanFault> {
    let mut names = [NameRecord::empty(); 128];
    let mut plan = Plan::unfilled();
    read(text.as_bytes(), &mut names, &mut plan)?;
    Ok(plan)
}

// The plan of a text that is accepted.
fn accepted(text: &str) -> Result<Plan, Fail> {
    verdict(text).map_err(|_| Fail::new("refused"))
}

// The fault of a text that is refused.
pub(crate) fn refused(text: &str) -> Result<PlanFault, Fail> {
    verdict(text).err().ok_or_else(|| Fail::new("accepted"))
}

// The number and the place of the fault of a text, if it has one.
pub(crate) fn fault(text: &str) -> Option<(u8, usize)> {
    verdict(text)
        .err()
        .map(|fault| (fault.number(), fault.place()))
}

#[test]
fn yard(rt: HostRuntime) -> Result<(), Fail> {
    let plan = accepted(YARD)?;
    assert_eq!(rt; plan.declared, 0xa4);
    assert_eq!(rt; plan.resources, 1);
    assert_eq!(rt; plan.events, 0);
    let (users, registered) = (plan.users, plan.registered);
    assert_eq!(rt; users[0], 0x24);
    assert_eq!(rt; users[1], 0);
    assert_eq!(rt; registered[0], 0);
    Ok(())
}

// A keyword may name an object, and an object may be referred to twice.
#[test]
fn keywords_as_names(rt: HostRuntime) -> Result<(), Fail> {
    let text = [
        "OIL_VERSION=\"2.5\";CPU CPU{",
        "RESOURCE RESOURCE{RESOURCEPROPERTY=STANDARD;};EVENT EVENT{MASK=AUTO;};EVENT MASK{MASK=AUTO;};",
        "TASK TASK{PRIORITY=63;SCHEDULE=FULL;ACTIVATION=1;AUTOSTART=FALSE;",
        "EVENT=MASK;RESOURCE=RESOURCE;RESOURCE=RESOURCE;};",
        "};//",
    ]
    .concat(rt.alloc())?;
    let plan = accepted(text.as_str())?;
    assert_eq!(rt; plan.declared, 1 << 63);
    assert_eq!(rt; plan.events, 2);
    let (users, registered) = (plan.users, plan.registered);
    assert_eq!(rt; users[0], 1 << 63);
    assert_eq!(rt; registered[0], 0);
    assert_eq!(rt; registered[1], 1 << 63);
    Ok(())
}

#[test]
fn whole_texts(rt: HostRuntime) {
    let cases = [
        ("", 3, 0),
        (" // nothing", 3, 11),
        ("@", 2, 0),
        ("OIL_VERSION = \"2.4\";", 3, 14),
        ("OIL_VERSION = \"2.5", 2, 14),
        ("OIL_VERSION ; \"2.5\"", 3, 12),
        ("OIL_VERSION=\"2.5\";CPU c{};", 8, 26),
        ("OIL_VERSION=\"2.5\";CPU c{}; x", 3, 27),
        ("OIL_VERSION=\"2.5\";CPU c{TASK", 3, 28),
    ];
    for (text, number, place) in cases {
        assert_eq!(rt; fault(text), Some((number, place)), "{}", text);
    }
}

// What stands inside the CPU, and the fault's place from there.
#[test]
fn inner_texts(rt: HostRuntime) -> Result<(), Fail> {
    let cases: [(&str, u8, u8); 8] = [
        (
            "EVENT e{MASK=AUTO;};TASK t{PRIORITY=1;SCHEDULE=FULL;ACTIVATION=1;AUTOSTART=FALSE;RESOURCE=e;",
            4,
            90,
        ),
        (
            "TASK t{PRIORITY=1;SCHEDULE=FULL;ACTIVATION=1;AUTOSTART=FALSE;EVENT=later;};",
            4,
            67,
        ),
        ("EVENT e{MASK=AUTO;};RESOURCE e{", 5, 29),
        ("TASK t{PRIORITY=64;", 6, 16),
        ("TASK t{PRIORITY=1;SCHEDULE=FULL;ACTIVATION=2;", 6, 43),
        (
            "TASK t{PRIORITY=1;SCHEDULE=FULL;ACTIVATION=1;AUTOSTART=TRUE;",
            3,
            55,
        ),
        ("EVENT e{MASK=AUTO;};};", 8, 22),
        ("EVENT 1{", 3, 6),
    ];
    for (text, number, place) in cases {
        let all = [HEAD, text].concat(rt.alloc())?;
        assert_eq!(rt;
            fault(all.as_str()),
            Some((number, HEAD.len() + usize::from(place))),
            "{}",
            text
        );
    }
    let twice = [HEAD, TASK, "TASK u{PRIORITY=1;"].concat(rt.alloc())?;
    assert_eq!(rt;
        fault(twice.as_str()),
        Some((6, HEAD.len() + TASK.len() + 16))
    );
    Ok(())
}

// Each prefix of a good text is refused: it has ended, or a string or the name of a reference is cut short.
#[test]
fn prefixes(rt: HostRuntime) -> Result<(), Fail> {
    let text = YARD.as_bytes();
    let end = text.len() - " // the end".len();
    for n in 0..end {
        let mut names = [NameRecord::empty(); 128];
        let mut plan = Plan::unfilled();
        let fault = read(&text[0..n], &mut names, &mut plan)
            .err()
            .ok_or_else(|| Fail::new("accepted"))?;
        assert!(rt; matches!(fault.number(), 2..=4));
        assert!(rt; fault.place() <= n);
        assert_eq!(rt; plan.declared, 0);
    }
    Ok(())
}

#[test]
fn layers(rt: HostRuntime) -> Result<(), Fail> {
    let cases = [
        ("@", Layer::Letters),
        ("x", Layer::Grammar),
        ("OIL_VERSION=\"2.5\";CPU c{};", Layer::Plan),
    ];
    for (text, layer) in cases {
        assert_eq!(rt; refused(text)?.layer(), layer);
    }
    Ok(())
}
