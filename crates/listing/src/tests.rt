use super::line::Line;
use super::lines::list_record;
use super::shown::{header, kind_refused, record_refused};
use std::test::Fail;

// What the program writes of a line, where that is a fixed text.
fn fixed(line: Line) -> &'static [u8] {
    match line {
        Ok(_) => b"a polygon",
        Err(kind) => kind_refused(kind),
    }
}

fn refusal(bytes: &[u8]) -> &'static [u8] {
    match list_record(bytes) {
        Ok(_) => b"listed",
        Err(fault) => record_refused(fault),
    }
}

#[test]
fn a_diagonal_step_has_no_axis_code(rt: HostRuntime) -> Result<(), Fail> {
    // From (5, 5) by direction 7.
    match list_record(&[8, 0, 4, 0, 5, 0, 5, 0, 1, 0xe0]) {
        Ok(lines) => {
            assert!(rt; fixed(lines[2]) == b"3 refused 26\n".as_slice());
            assert!(rt; fixed(lines[3]) == b"a polygon".as_slice());
            Ok(())
        }
        Err(_) => Err(Fail::new("refused")),
    }
}

#[test]
fn refused_records_have_one_line(rt: HostRuntime) {
    assert!(rt; refusal(&[]) == b"record refused 6\n".as_slice());
    assert!(rt; refusal(&[7, 0, 3, 0, 5, 0, 5, 0, 0]) == b"record refused 7\n".as_slice());
    assert!(rt; refusal(&[7, 0, 4, 0, 0, 4, 5, 0, 0]) == b"record refused 8\n".as_slice());
    assert!(rt; refusal(&[7, 0, 4, 0, 5, 0, 5, 0, 1]) == b"record refused 9\n".as_slice());
    assert!(rt; refusal(&[8, 0, 4, 0, 5, 0, 5, 0, 0, 0]) == b"record refused 10\n".as_slice());
    assert!(rt; header() == b"kind bits vertices top bottom\n".as_slice());
}
