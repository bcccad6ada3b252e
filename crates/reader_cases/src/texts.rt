// Texts for the examples.
use std::alloc::{AllocError, Global};

// The yard's plan: tasks 2, 5 and 7, and resource 0, which 2 and 5 use.
pub const YARD: &str = "OIL_VERSION = \"2.5\";
CPU yard {
  RESOURCE switch { RESOURCEPROPERTY = STANDARD; };
  TASK shunt { PRIORITY = 2; SCHEDULE = FULL; ACTIVATION = 1; AUTOSTART = FALSE; RESOURCE = switch; };
  TASK route { PRIORITY = 5; SCHEDULE = FULL; ACTIVATION = 1; AUTOSTART = FALSE; RESOURCE = switch; };
  TASK alarm { PRIORITY = 7; SCHEDULE = FULL; ACTIVATION = 1; AUTOSTART = FALSE; };
}; // the end";

pub const HEAD: &str = "OIL_VERSION=\"2.5\";CPU c{";

pub const TASK: &str = "TASK t{PRIORITY=1;SCHEDULE=FULL;ACTIVATION=1;AUTOSTART=FALSE;};";

// Objects r0, r1 .. of a kind of object whose body is the same for all.
pub(crate) fn objects(
    heap: Global,
    kind: &str,
    body: &str,
    count: u8,
) -> Result<String, AllocError> {
    let mut all = String::new(heap);
    for i in 0..count {
        let object = format!(in heap; "{kind} {kind}{i}{body}")?;
        all.push_str(object.as_str())?;
    }
    Ok(all)
}

// Tasks with the priorities from 0 on, as many as there are priorities, and then one more of another name.
pub(crate) fn tasks(heap: Global, count: u8) -> Result<String, AllocError> {
    let mut all = String::new(heap);
    for i in 0..count {
        let task = format!(in heap;
            "TASK t{i}{{PRIORITY={i};SCHEDULE=FULL;ACTIVATION=1;AUTOSTART=FALSE;}};"
        )?;
        all.push_str(task.as_str())?;
    }
    Ok(all)
}
