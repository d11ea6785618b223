// Sets of columns, at the ends of a word and in between.
use tip_columns::Columns;

#[test]
fn columns_are_added(rt: HostRuntime) {
    assert_eq!(rt; Columns(0).with(0), Some(Columns(1)));
    assert_eq!(rt; Columns(0).with(31), Some(Columns(1 << 31)));
    assert_eq!(rt; Columns(0).with(63), Some(Columns(1 << 63)));
    assert_eq!(rt; Columns(0).with(64), None);
    assert_eq!(rt; Columns(u64::MAX).with(usize::MAX), None);
    assert_eq!(rt; Columns(0b100).with(2), Some(Columns(0b100)));
    assert_eq!(rt; Columns(0b100).with(0), Some(Columns(0b101)));
    assert_eq!(rt; Columns(u64::MAX).with(63), Some(Columns(u64::MAX)));
}

#[test]
fn columns_are_found(rt: HostRuntime) {
    let ends = Columns((1 << 63) | (1 << 31) | 1);
    for column in 0..130 {
        let wanted = matches!(column, 0 | 31 | 63);
        assert_eq!(rt; ends.has(column), wanted, "{}", column);
        assert_eq!(rt; Columns(u64::MAX).has(column), column < 64, "{}", column);
        assert!(rt; !Columns(0).has(column), "{}", column);
    }
    assert!(rt; !Columns(u64::MAX).has(usize::MAX));
}

#[test]
fn columns_are_counted(rt: HostRuntime) {
    assert_eq!(rt; Columns(0).count(), 0);
    assert_eq!(rt; Columns(1).count(), 1);
    assert_eq!(rt; Columns(1 << 63).count(), 1);
    assert_eq!(rt; Columns((1 << 63) | (1 << 31) | 1).count(), 3);
    assert_eq!(rt; Columns(u64::MAX).count(), 64);
}

/// The set of one column is within that column, and not within the one before.
#[test]
fn columns_are_bounded(rt: HostRuntime) {
    for column in 0..64usize {
        for last in [0, 30, 31, 32, 62, 63, 64, usize::MAX] {
            assert_eq!(rt;
                Columns(1 << column).within(last),
                column <= last,
                "{}",
                column
            );
        }
    }
    for last in [0, 31, 63, 64, usize::MAX] {
        assert!(rt; Columns(0).within(last), "{}", last);
        assert_eq!(rt; Columns(u64::MAX).within(last), last >= 63, "{}", last);
    }
}
