use crate::frame::Frame;
use crate::reading::frame_of;
use rules::way::Way;
use std::process::Abort;

// The bytes are refused, as line 5.
fn check_refused(rt: &impl Abort, bytes: &[u8]) {
    let Err(fault) = frame_of(bytes, 5) else {
        assert!(rt; false);
        return;
    };
    assert_eq!(rt; fault.line, 5);
    assert_eq!(rt; fault.refusal.number(), 19);
}

#[test]
fn a_header_and_a_trailer(rt: HostRuntime) {
    assert_eq!(rt;
        frame_of(&[1, 0x7f, 0xff], 1),
        Ok(Frame::Header { count: 32767 })
    );
    assert_eq!(rt;
        frame_of(&[4, 2, 1], 1),
        Ok(Frame::Trailer { rules: 2, pages: 1 })
    );
}

#[test]
fn a_rule_and_a_page(rt: HostRuntime) {
    let entries = [0x80, 3];
    assert_eq!(rt;
        frame_of(&[2, 255, 1, 0x80, 3], 1),
        Ok(Frame::Rule {
            head: 255,
            entries: &entries
        })
    );
    let page = Frame::Page {
        way: Way::Complement,
        set: 3,
        ranks: &[1, 2],
    };
    assert_eq!(rt;
        frame_of(&[3, 2, 0, 0, 0, 0, 0, 0, 0, 3, 1, 2], 1),
        Ok(page)
    );
}

#[test]
fn no_frames(rt: HostRuntime) {
    check_refused(&rt, &[]);
    check_refused(&rt, &[0]);
    check_refused(&rt, &[5, 2, 1]);
    check_refused(&rt, &[1, 0]);
    check_refused(&rt, &[1, 0, 5, 0]);
    check_refused(&rt, &[2, 0, 1, 0]);
    check_refused(&rt, &[2, 0, 0, 0, 3]);
    check_refused(&rt, &[3, 0, 0, 0, 0, 0, 0, 0, 0, 0]);
    check_refused(&rt, &[3, 1, 0, 0, 0, 0, 0, 0, 0, 3, 1]);
}
