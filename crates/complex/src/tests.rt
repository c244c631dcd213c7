use crate::{Complex64, amplitude};

#[test]
fn amplitudes_are_read_and_written(rt: HostRuntime) {
    let mut re = [1.0, 2.0];
    let mut im = [3.0, 4.0];
    let a = amplitude::read(&re, &im, 1);
    assert!(rt; a.re == 2.0 && a.im == 4.0);
    amplitude::write(&mut re, &mut im, 0, Complex64 { re: 5.0, im: -6.0 });
    assert!(rt; re == [5.0, 2.0] && im == [-6.0, 4.0]);
}

#[test]
fn a_list_without_the_entry_gives_a_nan_and_is_kept(rt: HostRuntime) {
    let mut re = [1.0, 2.0];
    let mut im = [3.0];
    let half = amplitude::read(&re, &im, 1);
    assert!(rt; half.re == 2.0 && half.im.is_nan());
    for b in [2, usize::MAX] {
        let none = amplitude::read(&re, &im, b);
        assert!(rt; none.re.is_nan() && none.im.is_nan(), "at {b}");
        amplitude::write(&mut re, &mut im, b, Complex64 { re: 5.0, im: 6.0 });
        assert!(rt; re == [1.0, 2.0] && im == [3.0], "at {b}");
    }
    amplitude::write(&mut re, &mut im, 1, Complex64 { re: 5.0, im: 6.0 });
    assert!(rt; re == [1.0, 5.0] && im == [3.0]);
}
