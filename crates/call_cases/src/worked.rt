use examples::{Shown, worked_examples};

fn bits(shown: Shown) -> Option<u16> {
    shown.answer.ok().map(|polygon| polygon.bits)
}

// What is proved of the examples, once more by running them.
#[test]
fn as_handed_out(rt: HostRuntime) {
    let worked = worked_examples();
    assert_eq!(rt; bits(worked.alone), Some(0));
    assert_eq!(rt; bits(worked.chord), Some(6));
    assert_eq!(rt; bits(worked.legs), Some(12));
    assert_eq!(rt; bits(worked.flat), Some(44));
    assert_eq!(rt; bits(worked.paced), Some(6));
    assert_eq!(rt; bits(worked.over), None);
    assert_eq!(rt; bits(worked.near), Some(6));
    assert_eq!(rt; bits(worked.exact), Some(12));
    assert_eq!(rt; bits(worked.diagonal), None);
    assert_eq!(rt; bits(worked.back), Some(22));
    assert_eq!(rt; bits(worked.long), Some(13));
    assert_eq!(rt; worked.long.list[1], 1);
    assert_eq!(rt; worked.long.list[2], 16);
}
