//! Streams of size-prefixed buffers, split by their prefixes.
use flatc_tool::split_prefixed;

/// Messages of 3 and 0 bytes after their counts, and a byte.
const STREAM: &[u8] = &[3, 0, 0, 0, 7, 8, 9, 0, 0, 0, 0, 5];

/// Parts of the stream, and how many bytes the first message has with its prefix, or the fault's number and offset.
const PARTS: &[(usize, usize, Result<usize, (u8, u64)>)] = &[
    (0, 12, Ok(7)),
    (7, 12, Ok(4)),
    (11, 12, Err((50, 1))),
    (0, 6, Err((54, 0))),
    (0, 0, Ok(0)),
];

/// How many bytes the first message of a stream has, 0 where there is none, or the fault's number and offset. The rest
/// has to be after it.
fn first_of(stream: &[u8]) -> Result<usize, (u8, u64)> {
    match split_prefixed(stream) {
        Ok(None) => Ok(0),
        Ok(Some((first, rest))) => {
            let is_split = stream.strip_prefix(first) == Some(rest);
            if is_split {
                Ok(first.len())
            } else {
                Err((0, 0))
            }
        }
        Err(fault) => Err((fault.number(), fault.offset().unwrap_or(0))),
    }
}

#[test]
fn messages_come_one_by_one(rt: HostRuntime) {
    for (from, to, want) in PARTS {
        let part = STREAM.get(*from..*to).unwrap_or(b"");
        assert!(rt; first_of(part) == *want);
    }
}
