use crate::put_number;

#[test]
fn a_number_is_put_where_it_fits(rt: HostRuntime) {
    let mut out = *b"......";
    assert_eq!(rt; put_number(1234, 2, &mut out), 6);
    assert!(rt; out == *b"..1234");
    assert_eq!(rt; put_number(0, 0, &mut out), 1);
    assert!(rt; out == *b"0.1234");
    let mut all = [b'.'; 20];
    assert_eq!(rt; put_number(u64::MAX, 0, &mut all), 20);
    assert!(rt; all == *b"18446744073709551615");
}

#[test]
fn a_number_without_room_is_not_put(rt: HostRuntime) {
    let mut out = *b"......";
    for (n, at) in [(1234, 3), (0, 6), (0, 7), (u64::MAX, 0), (9, usize::MAX)] {
        assert_eq!(rt; put_number(n, at, &mut out), at, "{n}");
        assert!(rt; out == *b"......", "{n}");
    }
    assert_eq!(rt; put_number(7, 0, &mut []), 0);
}
