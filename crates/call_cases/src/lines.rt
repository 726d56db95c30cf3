use scripts::{Reply, parse_line};
use std::test::Fail;

const CALLS: [&str; 13] = [
    "kind 65535",
    "measure line",
    "measure pace",
    "rows 256",
    "list 0",
    "open 32 1024 5 0",
    "extend 255",
    "retract",
    "least priced 18446744073709551615 1",
    "least straying",
    "cheapest 0 10",
    "finest",
    "closest 100",
];

#[test]
fn a_line_is_the_text_of_its_command(rt: HostRuntime) -> Result<(), Fail> {
    for line in CALLS {
        let command = parse_line(line.as_bytes()).ok_or("no call")?;
        let text = format!(in rt.alloc(); "{command}")?;
        assert!(rt; text.as_str() == line);
    }
    Ok(())
}

#[test]
fn other_lines_are_no_call(rt: HostRuntime) {
    assert!(rt; parse_line(b"").is_none());
    assert!(rt; parse_line(b"rows 257").is_none());
    assert!(rt; parse_line(b"extend 256").is_none());
    assert!(rt; parse_line(b"closest 0100").is_none());
    assert!(rt; parse_line(b"closest +1").is_none());
    assert!(rt; parse_line(b"cheapest 1  2").is_none());
    assert!(rt; parse_line(b"finest ").is_none());
    assert!(rt; parse_line(b"retract\r").is_none());
    assert!(rt; parse_line(&[0xff]).is_none());
}

#[test]
fn a_reply_tells_any_number(rt: HostRuntime) -> Result<(), Fail> {
    let text = format!(in rt.alloc(); "{}", Reply::Refused { number: 200 })?;
    assert!(rt; text.as_str() == "refused 200");
    Ok(())
}
