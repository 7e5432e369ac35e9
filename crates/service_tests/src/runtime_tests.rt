//! Lines of an input, texts that are written or lost, and who is let in at the admin port.

use admin_pages::AdminRoute;
use http_edge::Headers;
use service_runtime::{Line, is_let_in, next_line, write_text};
use std::alloc::Global;
use std::process::Abort;
use std::sync::Wait;

/// Whether the input's next line is this.
fn is_next<R: Wait>(rt: &R, input: &mut &[u8], expected: &str) -> bool {
    let mut line = Line::new();
    match next_line(rt, input, &mut line) {
        Ok(found) => found && line.as_slice() == expected.as_bytes(),
        Err(_) => false,
    }
}

#[test]
fn an_input_has_a_line_before_each_line_feed_and_one_behind_the_last(rt: HostRuntime) {
    let mut input = b"drain\n\nretire a".as_slice();
    let found = [
        is_next(&rt, &mut input, "drain"),
        is_next(&rt, &mut input, ""),
        is_next(&rt, &mut input, "retire a"),
        is_next(&rt, &mut input, ""),
    ];
    assert!(rt; found == [true, true, true, false]);
}

#[test]
fn a_text_that_has_no_room_is_lost_and_counted(rt: HostRuntime) {
    let mut room = [0; 5];
    let mut output = room.as_mut_slice();
    let mut lost = 0;
    write_text(&mut output, b"abc", &mut lost);
    assert_eq!(rt; lost, 0);
    write_text(&mut output, b"def", &mut lost);
    assert_eq!(rt; lost, 1);
    assert!(rt; room.as_slice() == b"abcde".as_slice());
}

/// Whether a message with this field is let in where this token is wanted.
fn lets_in(
    rt: &impl Abort,
    alloc: Global,
    wanted: Option<&[u8]>,
    asked: &AdminRoute<'_>,
    (name, value): (&str, &str),
) -> bool {
    let mut headers = Headers::new(alloc);
    headers
        .push(name.as_bytes(), value.as_bytes())
        .expect(rt, "memory");
    is_let_in(wanted, &headers, asked)
}

#[test]
fn the_token_lets_in_and_without_one_no_page_may_change_anything(rt: HostRuntime) {
    let token = Some(b"a4".as_slice());
    let bearer = ("authorization", "Bearer a4");
    let other = ("authorization", "Bearer a5");
    let page = ("Origin", "http://localhost");
    let alloc = rt.alloc();
    let are_let_in = [
        lets_in(&rt, alloc, token, &AdminRoute::Drain, bearer),
        lets_in(&rt, alloc, token, &AdminRoute::Tenants, other),
        lets_in(&rt, alloc, token, &AdminRoute::Health, other),
        lets_in(&rt, alloc, None, &AdminRoute::Drain, other),
        lets_in(&rt, alloc, None, &AdminRoute::Drain, page),
        lets_in(&rt, alloc, None, &AdminRoute::Tenants, page),
    ];
    assert!(rt; are_let_in == [true, false, true, true, false, true]);
}
