use crate::digits::digits_of;
use crate::fault::Layer;
use crate::line::take_line;
use std::process::Abort;

// The text is refused, as line 5.
fn check_refused(rt: &impl Abort, text: &[u8]) {
    let Err(fault) = take_line(text, 5) else {
        assert!(rt; false);
        return;
    };
    assert_eq!(rt; fault.line, 5);
    assert_eq!(rt; fault.layer, Layer::Text);
    assert_eq!(rt; fault.refusal.number(), 18);
}

// The text begins with a line of so many bytes.
fn check_taken(rt: &impl Abort, text: &[u8], len: usize) {
    let Ok(line) = take_line(text, 1) else {
        assert!(rt; false);
        return;
    };
    assert_eq!(rt; line.len(), len);
}

#[test]
fn digits_of_bytes(rt: HostRuntime) {
    assert_eq!(rt; digits_of(0), *b"00");
    assert_eq!(rt; digits_of(0x9a), *b"9a");
    assert_eq!(rt; digits_of(255), *b"ff");
}

#[test]
fn lines(rt: HostRuntime) {
    check_taken(&rt, b"00\n", 1);
    check_taken(&rt, b"040201\nand more", 3);
    let mut text = [b'7'; 151];
    text[148] = b'\n';
    check_taken(&rt, &text, 74);
}

#[test]
fn no_lines(rt: HostRuntime) {
    check_refused(&rt, b"");
    check_refused(&rt, b"\n");
    check_refused(&rt, b"0102");
    check_refused(&rt, b"012\n");
    check_refused(&rt, b"01 02\n");
    check_refused(&rt, b"0A\n");
    check_refused(&rt, b"01\r\n");
    let mut text = [b'7'; 151];
    text[150] = b'\n';
    check_refused(&rt, &text);
}
