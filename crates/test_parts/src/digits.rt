//! Tests of signed digits of a few numbers, and of their partial sums.
use opgen_csd::recode;

#[test]
fn forms(rt: HostRuntime) {
    assert_eq!(rt; recode(0).len, 0);
    let seven = recode(7);
    assert_eq!(rt; seven.len, 4);
    assert_eq!(rt; &seven.digits[..4], [-1, 0, 0, 1].as_slice());
    assert_eq!(rt; seven.value(), 7);
    assert_eq!(rt; recode(-45).count(), 4);
}

#[test]
fn partial_sums(rt: HostRuntime) {
    // 45 is 64 - 16 - 4 + 1
    let sums = recode(45).partials();
    assert_eq!(rt; sums.len, 3);
    assert_eq!(rt; &sums.sums[..4], [3, 19, 45, 0].as_slice());
}
