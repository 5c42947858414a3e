//! Tests of the text of each line, and of the cache of the texts of handles.

use super::*;
use broad_index::QKind;
use live_table::Handle;
use pair_events::{Event, HPair, Told};
use std::test::Fail;

#[test]
fn lines_have_their_text(rt: HostRuntime) -> Result<(), Fail> {
    let a = Handle {
        slot: 7,
        generation: 0,
    };
    let b = Handle {
        slot: 8191,
        generation: u32::MAX,
    };
    let event = Event::Over;
    let pair = HPair { a, b };
    let mut out = Vec::new(rt.alloc());
    put_add(a, &mut out)?;
    put_stale(b, &mut out)?;
    put_frame(1, 33_550_336, &mut out)?;
    put_told(&Told { event, pair }, &mut out)?;
    put_exchanges(u64::MAX, &mut out)?;
    put_hits(QKind::Region, &[], &mut out)?;
    put_hits(QKind::Spot, &[a], &mut out)?;
    put_hits(QKind::Along, &[a, b], &mut out)?;
    put_hits(QKind::Between, &[b], &mut out)?;
    put_cast(&[b, a], &mut out)?;
    put_near(&[a], &mut out)?;
    put_near(&[], &mut out)?;
    put_mark(64, &mut out)?;
    put_back(63, &mut out)?;
    put_nomark(0, &mut out)?;
    put_end(3, 2, 1, &mut out)?;
    put_refused(5, Cause::Inverted, &mut out)?;
    put_refused(6, Cause::Owner, &mut out)?;
    let text = b"add 7:0\nstale 8191:4294967295\nframe 1 33550336\nover 7:0 8191:4294967295\n\
        exchanges 18446744073709551615\nbox 0\npoint 1 7:0\nray 2 7:0 8191:4294967295\nseg 1 8191:4294967295\n\
        cast 2 8191:4294967295 7:0\nnear 1 7:0\nnear 0\nmark 64\nback 63\nnomark 0\n\
        end 3 2 1\nrefused 5 inverted\nrefused 6 owner\n";
    assert_eq!(rt; out.as_slice(), text.as_slice());
    Ok(())
}

fn told(event: Event, slot: u32, generation: u32) -> Told {
    let a = Handle { slot, generation };
    let b = Handle {
        slot: 8192,
        generation: 3,
    };
    let pair = HPair {
        a,
        b: if event == Event::Stay { a } else { b },
    };
    Told { event, pair }
}

#[test]
fn kept_texts_are_those_of_their_handles(rt: HostRuntime) -> Result<(), Fail> {
    let mut texts = HandleTexts::new(rt.alloc());
    let mut out = Vec::new(rt.alloc());
    texts.put_told(&told(Event::Stay, 8191, u32::MAX), &mut out)?;
    texts.put_told(&told(Event::Stay, 8191, u32::MAX), &mut out)?;
    texts.put_told(&told(Event::Stay, 7, 0), &mut out)?;
    texts.put_told(&told(Event::Stay, 7, 0), &mut out)?;
    texts.put_told(&told(Event::Stay, 7, 1), &mut out)?;
    texts.put_told(&told(Event::Begin, 7, 1), &mut out)?;
    texts.put_told(&told(Event::Over, 7, 1), &mut out)?;
    let text = b"stay 8191:4294967295 8191:4294967295\nstay 8191:4294967295 8191:4294967295\n\
        stay 7:0 7:0\nstay 7:0 7:0\nstay 7:1 7:1\nbegin 7:1 8192:3\nover 7:1 8192:3\n";
    assert_eq!(rt; out.as_slice(), text.as_slice());
    Ok(())
}
