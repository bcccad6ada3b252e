// What the two tables begin with, and how they tell of a refused plan.
use std::test::Fail;
use texts::tables::Table;

#[test]
fn headers_and_faults(rt: HostRuntime) -> Result<(), Fail> {
    for (table, header, fault) in [
        (
            Table::Calls,
            b"call,result,running,waiting,ceiling,mark\r\n".as_slice(),
            b"plan,8,26,,,\r\n".as_slice(),
        ),
        (
            Table::Sheet,
            b"low,high,resource,call,result,running,waiting,ceiling\r\n",
            b"plan,8,26,,,,,\r\n",
        ),
    ] {
        let mut out = Vec::new(rt.alloc());
        table.push_header(&mut out)?;
        assert!(rt; out.as_slice() == header);
        out.clear();
        table.push_fault(&mut out, 8, 26)?;
        assert!(rt; out.as_slice() == fault);
    }
    Ok(())
}
