//! Lines at the ends of a signed word, and at the end of a buffer.
use crate::print::print_line;

/// What stands in a buffer before a line is written.
const OLD: u8 = 7;

#[test]
fn both_ends_of_a_word(rt: HostRuntime) {
    let mut buffer = [OLD; 24];
    assert_eq!(rt; print_line(&mut buffer, 0, i32::MIN), Some(12));
    assert_eq!(rt; print_line(&mut buffer, 12, i32::MAX), Some(11));
    assert_eq!(rt; &buffer, b"-2147483648\n2147483647\n\x07");
}

#[test]
fn around_zero(rt: HostRuntime) {
    let mut buffer = [OLD; 6];
    assert_eq!(rt; print_line(&mut buffer, 0, 0), Some(2));
    assert_eq!(rt; print_line(&mut buffer, 2, -1), Some(3));
    assert_eq!(rt; &buffer, b"0\n-1\n\x07");
}

#[test]
fn whole_or_not_at_all(rt: HostRuntime) {
    let mut buffer = [OLD; 4];
    assert_eq!(rt; print_line(&mut buffer, 1, 100), None);
    assert_eq!(rt; print_line(&mut buffer, 4, 0), None);
    assert_eq!(rt; print_line(&mut buffer, 5, 0), None);
    assert_eq!(rt; print_line(&mut buffer, usize::MAX, 0), None);
    assert_eq!(rt; &buffer, &[OLD; 4]);
    assert_eq!(rt; print_line(&mut buffer, 0, 100), Some(4));
    assert_eq!(rt; &buffer, b"100\n");
}
