//! Texts read as fixed-point numbers and printed again, as rows.

use fixed_box::Fix;
use number_front::{digits_ahead, fix_ahead, printed_fix_ahead};

#[test]
fn numbers_are_taken_off_the_front_of_a_text(rt: HostRuntime) {
    let cases: [(&[u8], Option<(Fix, usize)>); 20] = [
        (b"0.00002 1", Some((1, 7))),
        (b"-0.00001", Some((-1, 8))),
        (b"123.45678\t", Some((8090864, 9))),
        (b"1.5", Some((98304, 3))),
        (b"12.25,", Some((802816, 5))),
        (b"-9 8", Some((-589824, 2))),
        (b"7", Some((458752, 1))),
        (b"00042#", Some((2752512, 5))),
        (b"1.000007", Some((65536, 8))),
        (b"32766.99999", Some((2147418111, 11))),
        (b"1.000000001", Some((65536, 11))),
        (b"1.0000000001", None),
        (b"0000000001", None),
        (b"32767", None),
        (b"-32768", None),
        (b"1. 5", None),
        (b".5", None),
        (b"--1", None),
        (b"+1", None),
        (b"", None),
    ];
    for (text, want) in cases {
        assert_eq!(rt; fix_ahead(text), want);
    }
}

#[test]
fn numbers_as_they_are_printed_are_taken_off_the_front_of_a_text(rt: HostRuntime) {
    let cases: [(&[u8], Option<(Fix, usize)>); 28] = [
        (b"1234.56789 ", Some((80908641, 10))),
        (b"-9999.99999", Some((-655359999, 11))),
        (b"12345.67890", None),
        (b"1a34.56789 ", None),
        (b"12.34567 8", Some((809086, 8))),
        (b"12.34567", Some((809086, 8))),
        (b"-12.34567\t", Some((-809086, 9))),
        (b"0.00002 1", Some((1, 7))),
        (b"-0.00001 ", Some((-1, 8))),
        (b"-0.00000#", Some((0, 8))),
        (b"9.99999\r", Some((655359, 7))),
        (b"99.99999 ", Some((6553599, 8))),
        (b"123.45678\t", Some((8090864, 9))),
        (b"-999.99999", Some((-65535999, 10))),
        (b"1.000007", Some((65536, 7))),
        (b"0.00002", Some((1, 7))),
        (b"-1.5 ", None),
        (b"12.3456 7", None),
        (b"12.345 78", None),
        (b"1.2345 67", None),
        (b"1x.34567 ", None),
        (b"12:34567 ", None),
        (b"12.3456: ", None),
        (b"12.3/567 ", None),
        (b"a23.45678", None),
        (b"--2.34567", None),
        (b"12345678 ", None),
        (b"", None),
    ];
    for (text, want) in cases {
        assert_eq!(rt; printed_fix_ahead(text), want);
    }
}

#[test]
fn digits_are_taken_off_the_front_of_a_text(rt: HostRuntime) {
    let cases: [(&[u8], (u64, usize)); 10] = [
        (b"007:1", (7, 3)),
        (b"5:678", (5, 1)),
        (b"56:78", (56, 2)),
        (b"5678:", (5678, 4)),
        (b"56789", (56789, 5)),
        (b"5678", (5678, 4)),
        (b":5678", (0, 0)),
        (b"12345678901", (1234567890, 10)),
        (b"5", (5, 1)),
        (b"x5", (0, 0)),
    ];
    for (text, want) in cases {
        assert_eq!(rt; digits_ahead(text), want);
    }
}
