// A line grows at its end.
use status_line::Line;
use std::test::Fail;

#[test]
fn a_line_grows(rt: HostRuntime) -> Result<(), Fail> {
    let line = Line::empty().with(b"student ").with(b"ann").with(b" at ");
    assert_eq!(rt; line.as_bytes(), b"student ann at ".as_slice());
    let line = line.with_number(18_446_744_073_709_551_615).with(b"\n");
    assert_eq!(rt;
        line.as_bytes(),
        b"student ann at 18446744073709551615\n".as_slice()
    );
    assert_eq!(rt; Line::empty().as_bytes(), b"".as_slice());
    Ok(())
}
