// Places as lines and columns, and faults in words.
use crate::verdicts::refused;
use oil::position::{Position, locate};
use std::test::Fail;

#[test]
fn lines_and_columns(rt: HostRuntime) {
    let text = b"one\ntwo\n\nfour";
    let cases = [
        (0, 1, 1),
        (3, 1, 4),
        (4, 2, 1),
        (7, 2, 4),
        (8, 3, 1),
        (9, 4, 1),
        (13, 4, 5),
        (99, 4, 5),
    ];
    for (place, line, column) in cases {
        assert_eq!(rt; locate(text, place), Position { line, column });
    }
    assert_eq!(rt; locate(b"", 5), Position { line: 1, column: 1 });
}

#[test]
fn words(rt: HostRuntime) -> Result<(), Fail> {
    let cases = [
        ("@", "no name, number, string or mark begins here"),
        ("x", "this may not stand here, or the text ended"),
        ("OIL_VERSION=\"2.5\";CPU c{};", "the text declares no task"),
    ];
    for (text, words) in cases {
        let fault = refused(text)?;
        assert_eq!(rt; fault.explain(), words);
        let printed = format!(in rt.alloc(); "{fault}")?;
        assert_eq!(rt; printed.as_str(), words);
    }
    Ok(())
}
