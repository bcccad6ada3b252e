// What the programs share.
use crate::yard::YARD;
use oil::fault::{PlanCause, PlanFault};
use std::io;
use std::io::ErrorKind;
use std::process::ExitCode;
use std::test::Fail;
use transcripts::diagnosis::diagnose;
use transcripts::programs::{exit_code, explanation, text_of};

#[test]
fn a_refused_text_is_explained(rt: HostRuntime) -> Result<(), Fail> {
    for (text, wanted) in [
        (
            "OIL_VERSION=\"2.5\";CPU c{};",
            "plan.oil:1:27: the text declares no task",
        ),
        (
            "OIL_VERSION = \"2.5\";\nCPU c {\n  EVENT e { MASK = AUTO; };\n  EVENT e { MASK = AUTO; };\n};",
            "plan.oil:4:9: this name is already declared",
        ),
    ] {
        let line = explanation(rt.alloc(), text.as_bytes())?.ok_or("accepted")?;
        assert_eq!(rt; line.as_str(), wanted);
    }
    Ok(())
}

#[test]
fn an_accepted_text_is_not(rt: HostRuntime) -> Result<(), Fail> {
    assert!(rt; explanation(rt.alloc(), YARD.as_bytes())?.is_none());
    Ok(())
}

#[test]
fn a_fault_is_told_by_line_and_column(rt: HostRuntime) -> Result<(), Fail> {
    let fault = PlanFault::new(PlanCause::NotKnown, 3);
    let line = diagnose(rt.alloc(), b"a\nbc", &fault)?;
    assert_eq!(rt;
        line.as_str(),
        "plan.oil:2:2: no resource or event of this name is declared before"
    );
    Ok(())
}

#[test]
fn a_plan_text_is_kept(rt: HostRuntime) -> Result<(), Fail> {
    let read = YARD.as_bytes().to_vec(rt.alloc())?;
    let text = text_of(rt.alloc(), Ok(read))?;
    assert!(rt; text.as_slice() == YARD.as_bytes());
    Ok(())
}

#[test]
fn a_file_that_cannot_be_read_is_empty(rt: HostRuntime) -> Result<(), Fail> {
    let missing = io::Error::from(ErrorKind::NotFound);
    assert!(rt; text_of(rt.alloc(), Err(missing))?.is_empty());
    let full = io::Error::from(ErrorKind::OutOfMemory);
    let kind = text_of(rt.alloc(), Err(full)).err().map(|e| e.kind());
    assert_eq!(rt; kind, Some(ErrorKind::OutOfMemory));
    Ok(())
}

#[test]
fn an_error_ends_with_status_1(rt: HostRuntime) {
    assert_eq!(rt; exit_code(&rt, "cases", Ok(())), ExitCode::SUCCESS);
    let missing = io::Error::from(ErrorKind::NotFound);
    assert_eq!(rt; exit_code(&rt, "cases", Err(missing)), ExitCode::FAILURE);
}
