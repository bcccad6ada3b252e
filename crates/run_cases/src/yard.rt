// The yard's plan: tasks 2, 5 and 7, and resource 0, which 2 and 5 use.
use plan::record::Plan;
use std::test::Fail;
use transcripts::plans::read_plan;

pub const YARD: &str = "OIL_VERSION = \"2.5\";
CPU yard {
  RESOURCE switch { RESOURCEPROPERTY = STANDARD; };
  TASK shunt { PRIORITY = 2; SCHEDULE = FULL; ACTIVATION = 1; AUTOSTART = FALSE; RESOURCE = switch; };
  TASK route { PRIORITY = 5; SCHEDULE = FULL; ACTIVATION = 1; AUTOSTART = FALSE; RESOURCE = switch; };
  TASK alarm { PRIORITY = 7; SCHEDULE = FULL; ACTIVATION = 1; AUTOSTART = FALSE; };
};";

pub(crate) fn plan() -> Result<Plan, Fail> {
    read_plan(YARD.as_bytes()).map_err(|_| Fail::new("refused"))
}
