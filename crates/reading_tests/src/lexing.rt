//! Two lines are cut.

use cfg_lex::{Span, lines};
use std::test::Fail;

#[test]
fn cuts_two_lines(rt: HostRuntime) -> Result<(), Fail> {
    let found = lines(rt.alloc(), b"a  b\r\n c").ok().ok_or("lines")?;
    let found = found.as_slice();
    assert_eq!(rt; found.len(), 2);
    assert_eq!(rt; found[0].number, 1);
    assert_eq!(rt; found[0].indent, 0);
    let words = found[0].words.as_slice();
    assert_eq!(rt; words.len(), 2);
    assert_eq!(rt; words[0], Span { from: 0, upto: 1 });
    assert_eq!(rt; words[1], Span { from: 3, upto: 4 });
    assert_eq!(rt; found[1].number, 2);
    assert_eq!(rt; found[1].indent, 1);
    let words = found[1].words.as_slice();
    assert_eq!(rt; words.len(), 1);
    assert_eq!(rt; words[0], Span { from: 7, upto: 8 });
    Ok(())
}
