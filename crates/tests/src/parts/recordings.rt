//! Readers of recordings, and what the program can't show of one.
use crate::rows::holds;
use std::alloc::{AllocError, Global};
use vt_recording::{
    Content, Encoding, Fault, Format, Moment, Source, Watched, json_text, read_recording,
    take_between, timeline_of,
};

/// Returns whether raw bytes, which have no times, are content up to whatever time.
fn has_no_times(alloc: Global) -> Result<bool, AllocError> {
    let until = Some(Moment::Micros(0));
    let timeline = timeline_of(alloc, b"a\r\nb", None, Format::Raw)?;
    let taken = take_between(alloc, &timeline, Format::Raw, Encoding::Dec, None, until)?;
    Ok(taken.content.as_slice() == b"a\r\nb".as_slice() && timeline.broken.is_none())
}

#[test]
fn raw_bytes_have_no_times(rt: HostRuntime) {
    holds(&rt, "raw bytes", has_no_times(rt.alloc()));
}

#[test]
fn a_cast_begins_after_a_byte_order_mark(rt: HostRuntime) {
    let text = json_text(b"\xEF\xBB\xBF \n{\n");
    holds(&rt, "the text", text == b"{\n".as_slice());
}

/// Returns whether a read gives so many bytes, and these first.
fn gives(content: &mut Content, count: usize, first: &[u8]) -> bool {
    let mut buffer = [0u8; 2];
    let is_count = match content.read_chunk(&mut buffer) {
        Ok(n) => n == count,
        Err(_) => false,
    };
    is_count && buffer.starts_with(first)
}

/// Returns whether a source of bytes gives them in parts, and then none.
fn gives_them_all(alloc: Global) -> Result<bool, AllocError> {
    let mut content = Content::new(Vec::from_slice(alloc, b"abc")?);
    Ok(gives(&mut content, 2, b"ab") && gives(&mut content, 1, b"c") && gives(&mut content, 0, b""))
}

#[test]
fn content_is_read_in_parts(rt: HostRuntime) {
    holds(&rt, "content", gives_them_all(rt.alloc()));
}

/// Returns whether a reading under a limit returns this.
fn reads(alloc: Global, limit: usize, whole: bool) -> bool {
    let input: &[u8] = b"abc";
    let mut reader = Watched::new(input);
    match read_recording(alloc, &mut reader, limit.min(1000)) {
        Ok(bytes) => whole && bytes.as_slice() == b"abc".as_slice(),
        Err(fault) => !whole && fault == Fault::TooLong,
    }
}

#[test]
fn recordings_are_read_to_their_end(rt: HostRuntime) {
    holds(&rt, "the limit", reads(rt.alloc(), 3, true));
    holds(&rt, "above the limit", reads(rt.alloc(), 2, false));
}
