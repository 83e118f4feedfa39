//! Numbers and lines at values that are worked out by hand.

use super::*;
use std::test::Fail;

#[test]
fn reads_decimal_numbers(rt: HostRuntime) {
    let cases: [(&[u8], Option<u64>); 16] = [
        (b"0", Some(0)),
        (b"7", Some(7)),
        (b"10", Some(10)),
        (b"4294967296", Some(4_294_967_296)),
        (b"18446744073709551615", Some(u64::MAX)),
        (b"18446744073709551616", None),
        (b"100000000000000000000000000000000000000000", None),
        (b"", None),
        (b"00", None),
        (b"010", None),
        (b"+1", None),
        (b"-0", None),
        (b" 1", None),
        (b"1 ", None),
        (b"1a", None),
        (b"\xff", None),
    ];
    for (text, want) in cases {
        assert_eq!(rt; read_u64(text), want, "at {text:?}");
    }
}

#[test]
fn appends_digits(rt: HostRuntime) -> Result<(), Fail> {
    let mut out = Vec::new(rt.alloc());
    put_u64(&mut out, 0)?;
    assert_eq!(rt; out.as_slice(), b"0".as_slice());
    put_u64(&mut out, u64::MAX)?;
    assert_eq!(rt; out.as_slice(), b"018446744073709551615".as_slice());
    Ok(())
}

#[test]
fn gives_lines(rt: HostRuntime) -> Result<(), Fail> {
    let cases: [(&[u8], &[&[u8]]); 7] = [
        (b"", &[]),
        (b"\n", &[b""]),
        (b"a", &[b"a"]),
        (b"a\n", &[b"a"]),
        (b"a\n\n", &[b"a", b""]),
        (b"\na", &[b"", b"a"]),
        (b"ab\r\n\ncd", &[b"ab\r", b"", b"cd"]),
    ];
    for (text, want) in cases {
        let got: Vec<&[u8]> = lines(text).collect(rt.alloc())?;
        assert_eq!(rt; got.as_slice(), want, "at {text:?}");
    }
    Ok(())
}
