//! Probabilities as texts, and products and powers that are rounded.

use rely_num::{Atto, NumFault, hi_pow, lo_pow, mul_lo};

#[test]
fn reads_and_prints(rt: HostRuntime) {
    assert_eq!(rt; Atto::read(b""), Err(NumFault::Empty));
    assert_eq!(rt; Atto::read(b"-1"), Err(NumFault::Sign));
    assert_eq!(rt; Atto::read(b".5"), Err(NumFault::Digit(0)));
    assert_eq!(rt; Atto::read(b"1."), Err(NumFault::Digit(2)));
    assert_eq!(rt;
        Atto::read(b"0.1234567890123456789"),
        Err(NumFault::Decimals(20))
    );
    assert_eq!(rt; Atto::read(b"1.000000000000000001"), Err(NumFault::Above));
    assert_eq!(rt; Atto::read(b"1"), Ok(Atto::ONE));
    let mut out = [0; 20];
    Atto::read(b"0.5").expect(&rt, "a half").print(&mut out);
    assert_eq!(rt; out.as_slice(), b"0.500000000000000000".as_slice());
}

#[test]
fn rounds(rt: HostRuntime) {
    let mild = Atto::read(b"0.998").expect(&rt, "mild");
    let third = Atto::read(b"0.333333333333333333").expect(&rt, "third");
    assert_eq!(rt; lo_pow(mild, 10).get(), 980_179_043_351_949_424);
    assert_eq!(rt; mul_lo(third, third).get(), 111_111_111_111_111_110);
    assert_eq!(rt; hi_pow(third, 2).get(), 111_111_111_111_111_111);
}
