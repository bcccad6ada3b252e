// The run that shows an entry of the blocking table.
use crate::yard::plan;
use plan::entry::Entry;
use runs::entries::show_entry;
use sets::pair::Pair;
use sets::word::WordSet;
use std::test::Fail;

#[test]
fn the_lower_task_holds_up_the_higher(rt: HostRuntime) -> Result<(), Fail> {
    let set = Pair::new(WordSet::new(4), WordSet::new(60));
    let entry = Entry {
        low: 2,
        high: 5,
        resource: 0,
    };
    let kernel = show_entry(set, &plan()?, entry).ok_or("no such entry")?;
    assert_eq!(rt; kernel.running(), Some(2));
    assert_eq!(rt; kernel.waiting(), 1 << 5);
    assert_eq!(rt; kernel.system_ceiling(), Some(5));
    Ok(())
}

#[test]
fn others_are_no_entries(rt: HostRuntime) -> Result<(), Fail> {
    let plan = plan()?;
    for (low, high, resource) in [(5, 2, 0), (2, 7, 0), (7, 5, 0), (2, 5, 1), (2, 6, 0)] {
        let entry = Entry {
            low,
            high,
            resource,
        };
        assert!(rt; show_entry(WordSet::new(64), &plan, entry).is_none());
    }
    Ok(())
}

// A set of 7 has no place for task 7, so that the plan is not installed.
#[test]
fn a_small_set_shows_nothing(rt: HostRuntime) -> Result<(), Fail> {
    let entry = Entry {
        low: 2,
        high: 5,
        resource: 0,
    };
    assert!(rt; show_entry(WordSet::new(7), &plan()?, entry).is_none());
    assert!(rt; show_entry(WordSet::new(8), &plan()?, entry).is_some());
    Ok(())
}
