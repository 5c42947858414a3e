//! Summaries of reports.

use scene_drill::put_summary;
use std::test::Fail;

#[test]
fn reports_sum_up(rt: HostRuntime) -> Result<(), Fail> {
    let nothing = b"adds 0\npairs 0\nbegin 0\nstay 0\nover 0\nhits 0\n";
    let whole = b"add 0:0\nadd 1:0\nadd 2:0\nstale 3:0\nbegin 0:0 1:0\nbegin 0:0 2:0\nframe 1 2\n\
        begin 1:0 2:0\nstay 0:0 1:0\nstay 0:0 2:0\nover 0:0 1:0\nexchanges 12\nframe 2 30\nstay 0:0 2:0\n\
        box 3 0:0 1:0 2:0\npoint 0\nray 2 0:0 1:0\nseg 100 2:0\nstay 1:0 2:0\nover 1:0 2:0\nover 0:0 2:0\nover 0:0 2:0\n\
        over 0:0 2:0\nexchanges 30\nframe 3 10\nend 20 3 3\nrefused 21 word\n";
    let sums = b"adds 3\npairs 42\nbegin 3\nstay 4\nover 5\nhits 105\n";
    let shown = b"adds 3\npairs 42\nbegin 3\nstay 4\nover 5\nhits 105\nexchanges 42\n";
    let cases: [(&[u8], bool, &[u8]); 10] = [
        (b"", false, nothing),
        (
            b"",
            true,
            b"adds 0\npairs 0\nbegin 0\nstay 0\nover 0\nhits 0\nexchanges 0\n",
        ),
        (whole, false, sums),
        (whole, true, shown),
        (
            b"add 0:0\nframe 1 7",
            false,
            b"adds 1\npairs 7\nbegin 0\nstay 0\nover 0\nhits 0\n",
        ),
        (
            b"add\nadd",
            false,
            b"adds 2\npairs 0\nbegin 0\nstay 0\nover 0\nhits 0\n",
        ),
        (
            b"frame 1\nframed 1 2\nadded 0:0\n add 0:0\nADD 0:0\nframe  1 2\n",
            false,
            b"adds 0\npairs 1\nbegin 0\nstay 0\nover 0\nhits 0\n",
        ),
        (
            b"box x 1\nbox\nray -1\nseg 1,0\npoint 100000000000000000000\npoint 99999999999999999999\n",
            false,
            b"adds 0\npairs 0\nbegin 0\nstay 0\nover 0\nhits 99999999999999999999\n",
        ),
        (
            b"\n\n\r\nadd 0:0\r\nframe 1 2\r\n",
            false,
            b"adds 1\npairs 0\nbegin 0\nstay 0\nover 0\nhits 0\n",
        ),
        (
            b"exchanges 18446744073709551615\nexchanges 18446744073709551615\n",
            true,
            b"adds 0\npairs 0\nbegin 0\nstay 0\nover 0\nhits 0\nexchanges 36893488147419103230\n",
        ),
    ];
    for (report, exchanges, rows) in cases {
        let mut out = Vec::new(rt.alloc());
        put_summary(4294967295, 60, exchanges, report, &mut out)?;
        let mut want = Vec::from_slice(rt.alloc(), b"boxes 4294967295\nframes 60\n")?;
        want.extend_from_slice(rows)?;
        assert_eq!(rt; out.as_slice(), want.as_slice());
    }
    Ok(())
}
