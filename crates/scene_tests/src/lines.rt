//! The reader of lines over sources that hand bytes out in pieces, or fail.

ghost use Rattle.std.specs.Prelude.{◌≡◌, ◌-◌, ◌^◌, ◌<◌, false};

use play_io::{FileSource, HonestSource, MemSource, Source};
use scene_lines::{BUFFER_LEN, LONGEST_LINE, LineReader, Next};
use std::process::Abort;
use std::test::Fail;

// An answer, and the reader's line and number after it.
type Step<'a> = (Next, &'a [u8], u32);

// The reader gives these answers of the source, and the last of them ends it.
fn follow<S: Source>(rt: &impl Abort, mut reader: LineReader, source: &mut S, steps: &[Step])
    requires fresh { reader.over ≡ false }
    requires countable { S.faults source.old < 2 ^ 64 - 1 }
{
    'steps: for (next, line, number) in steps {
        assert!(rt; !reader.ended());
        assert_eq!(rt; reader.next(source), *next);
        assert_eq!(rt; reader.line(), *line);
        assert_eq!(rt; reader.number(), *number);
    }
    assert!(rt; reader.ended());
}

#[test]
fn lines_are_cut_alike_however_reads_cut_the_bytes(rt: HostRuntime) -> Result<(), Fail> {
    let rows: [(u32, &[u8], &[Step]); 7] = [
        (
            2,
            b"a\nb\r",
            &[
                (Next::Line, b"a", 1),
                (Next::Line, b"b", 2),
                (Next::End, b"b", 2),
            ],
        ),
        (
            2,
            b"a\n\nc",
            &[
                (Next::Line, b"a", 1),
                (Next::Line, b"", 2),
                (Next::TooMany, b"", 3),
            ],
        ),
        (1, b"", &[(Next::End, b"", 0)]),
        (1, b"\n", &[(Next::Line, b"", 1), (Next::End, b"", 1)]),
        (1, b"\r", &[(Next::Line, b"", 1), (Next::End, b"", 1)]),
        (
            1,
            b"a\r\r\n",
            &[(Next::Line, b"a\r", 1), (Next::End, b"a\r", 1)],
        ),
        (
            1,
            b"a\rb\n\n",
            &[(Next::Line, b"a\rb", 1), (Next::TooMany, b"a\rb", 2)],
        ),
    ];
    for (limit, bytes, steps) in &rows {
        assert!(rt; 1 <= *limit && *limit < 10);
        for most in [1, 3, BUFFER_LEN as u32] {
            let mut honest = HonestSource::new(rt.alloc(), bytes, most)?;
            follow(
                &rt,
                LineReader::new(rt.alloc(), *limit)?,
                &mut honest,
                steps,
            );
            let mut faulty = MemSource::new(rt.alloc(), bytes, most, &[])?;
            follow(
                &rt,
                LineReader::new(rt.alloc(), *limit)?,
                &mut faulty,
                steps,
            );
        }
        follow(
            &rt,
            LineReader::new(rt.alloc(), *limit)?,
            &mut FileSource::new(*bytes),
            steps,
        );
    }
    Ok(())
}

#[test]
fn a_failed_read_ends_the_lines_and_none_follows_the_end(rt: HostRuntime) -> Result<(), Fail> {
    let rows: [(u32, &[u8], u32, u32, &[Step]); 6] = [
        (
            2,
            b"a",
            1,
            2,
            &[(Next::Line, b"a", 1), (Next::End, b"a", 1)],
        ),
        (2, b"a", 1, 1, &[(Next::ReadFault, b"", 0)]),
        (2, b"a\nb", 1, 0, &[(Next::ReadFault, b"", 0)]),
        (
            2,
            b"a\nb",
            1,
            2,
            &[(Next::Line, b"a", 1), (Next::ReadFault, b"a", 1)],
        ),
        (
            2,
            b"a\nb\nc",
            4,
            1,
            &[
                (Next::Line, b"a", 1),
                (Next::Line, b"b", 2),
                (Next::ReadFault, b"b", 2),
            ],
        ),
        (
            1,
            b"a\nb\nc",
            3,
            1,
            &[(Next::Line, b"a", 1), (Next::TooMany, b"a", 2)],
        ),
    ];
    for (limit, bytes, most, failing, steps) in &rows {
        assert!(rt; 1 <= *limit && *limit < 10 && 1 <= *most);
        let mut source = MemSource::new(rt.alloc(), bytes, *most, &[*failing])?;
        follow(
            &rt,
            LineReader::new(rt.alloc(), *limit)?,
            &mut source,
            steps,
        );
    }
    Ok(())
}

#[test]
fn a_line_has_at_most_1024_bytes_without_its_end(rt: HostRuntime) -> Result<(), Fail> {
    let text = [b'x'; LONGEST_LINE + 1];
    let rows: [(usize, &[u8], Next); 7] = [
        (LONGEST_LINE, b"\n", Next::Line),
        (LONGEST_LINE, b"\r\n", Next::Line),
        (LONGEST_LINE, b"\r", Next::Line),
        (LONGEST_LINE, b"\r\r\n", Next::Long),
        (LONGEST_LINE + 1, b"\n", Next::Long),
        (LONGEST_LINE + 1, b"\r\n", Next::Long),
        (LONGEST_LINE + 1, b"", Next::Long),
    ];
    for (len, end, next) in &rows {
        let line = text.get(..*len).ok_or("too long")?;
        let mut bytes = line.to_vec(rt.alloc())?;
        bytes.extend_from_slice(end)?;
        let handed_out = [(Next::Line, line, 1), (Next::End, line, 1)];
        let refused = [(Next::Long, text.split_at(0).0, 1)];
        for most in [1, LONGEST_LINE as u32 + 1, BUFFER_LEN as u32] {
            let mut source = HonestSource::new(rt.alloc(), &bytes, most)?;
            let reader = LineReader::new(rt.alloc(), 1)?;
            if *next == Next::Line {
                follow(&rt, reader, &mut source, &handed_out);
            } else {
                follow(&rt, reader, &mut source, &refused);
            }
        }
    }
    Ok(())
}

#[test]
fn an_input_of_several_buffers_loses_no_byte(rt: HostRuntime) -> Result<(), Fail> {
    let mut text = Vec::new(rt.alloc());
    for i in 0..1_100u32 {
        text.push(b'a' + (i % 26) as u8)?;
    }
    let mut bytes = Vec::new(rt.alloc());
    let mut steps = Vec::new(rt.alloc());
    for i in 0..500u32 {
        let from = (i % 26) as usize;
        let line = text
            .get(from..from + (i * 7 % (LONGEST_LINE as u32 + 1)) as usize)
            .ok_or("too long")?;
        bytes.extend_from_slice(line)?;
        bytes.extend_from_slice(if i % 2 == 0 { b"\n" } else { b"\r\n" })?;
        steps.push((Next::Line, line, i + 1))?;
        if i == 499 {
            steps.push((Next::End, line, 500))?;
        }
    }
    assert!(rt; bytes.len() > 3 * BUFFER_LEN);
    for most in [3, 4_096, 100_000] {
        let mut source = HonestSource::new(rt.alloc(), &bytes, most)?;
        follow(&rt, LineReader::new(rt.alloc(), 500)?, &mut source, &steps);
    }
    Ok(())
}
