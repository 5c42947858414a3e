//! Tests of the text of numbers on both sides of each count of digits, wide ones and hexadecimal ones.

ghost use Rattle.std.specs.Prelude.{◌+◌, ◌≤◌, length};
ghost use Rattle.text_line.specs.declared.TheConstants.{ROOM};

use super::*;
use std::test::Fail;

#[test]
fn numbers_on_both_sides_of_each_count_of_digits(rt: HostRuntime) -> Result<(), Fail> {
    let mut line = TextLine::new();
    put_pair(0, 9, &mut line);
    put_pair(10, 99, &mut line);
    put_pair(100, 999, &mut line);
    put_pair(1000, 9999, &mut line);
    put_pair(10_000, u32::MAX, &mut line);
    assert_eq!(rt;
        line.bytes(),
        b"0 9 10 99 100 999 1000 9999 10000 4294967295 ".as_slice()
    );
    Ok(())
}

fn put_pair(first: u32, second: u32, line: &mut TextLine)
    requires { length line.old + 22 ≤ ROOM }
    ensures { length line.new ≤ length line.old + 22 }
{
    line.number(first);
    line.text(b" ");
    line.number(second);
    line.text(b" ");
}

#[test]
fn wide_numbers_are_whole(rt: HostRuntime) -> Result<(), Fail> {
    let mut line = TextLine::new();
    line.wide_number(u64::from(u32::MAX) + 1);
    line.text(b" ");
    line.wide_number(u64::MAX);
    assert_eq!(rt; line.bytes(), b"4294967296 18446744073709551615".as_slice());
    Ok(())
}

#[test]
#[tactic(auto, using(crate::proofs::Hexadecimal::one_length))]
fn hexadecimal_digits_are_of_lower_case(rt: HostRuntime) -> Result<(), Fail> {
    let mut line = TextLine::new();
    line.text(b"seen by ");
    line.hexadecimal(0xa);
    line.text(b" of ");
    line.hexadecimal(0);
    assert_eq!(rt; line.bytes(), b"seen by a of 0".as_slice());
    Ok(())
}
