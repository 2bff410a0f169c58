use crate::read_full;
use std::io;
use std::io::Read;
use std::test::Fail;

// Gives up to two bytes a call, and fails once, before the call that follows `calls` others.
#[derive(Drop)]
struct Pieces {
    bytes: &'static [u8],
    calls: Option<usize>,
}

impl Read for Pieces {
    fn read(&mut self, buf: &mut [u8]) -> io::Result<usize> {
        if self.calls == Some(0) {
            self.calls = None;
            return Err(io::ErrorKind::Other.into());
        }
        self.calls = self.calls.map(|n| n.saturating_sub(1));
        let n = self.bytes.len().min(buf.len()).min(2);
        buf[..n].copy_from_slice(&self.bytes[..n]);
        self.bytes = &self.bytes[n..];
        Ok(n)
    }
}

#[test]
fn reads_on_until_the_room_is_full_or_the_input_ends(rt: HostRuntime) -> Result<(), Fail> {
    let mut input = Pieces {
        bytes: b"abcdefg",
        calls: None,
    };
    let mut buf = [0u8; 5];
    assert_eq!(rt; read_full(&mut input, &mut buf)?, 5);
    assert_eq!(rt; &buf[..], &b"abcde"[..]);
    assert_eq!(rt; read_full(&mut input, &mut buf)?, 2);
    assert_eq!(rt; &buf[..2], &b"fg"[..]);
    assert_eq!(rt; read_full(&mut input, &mut buf)?, 0);
    Ok(())
}

#[test]
fn a_read_that_fails_is_told_and_no_byte_is_lost(rt: HostRuntime) -> Result<(), Fail> {
    let mut input = Pieces {
        bytes: b"abcdefg",
        calls: Some(2),
    };
    let mut buf = [0u8; 6];
    assert!(rt; read_full(&mut input, &mut buf).is_err());
    assert_eq!(rt; &buf[..4], &b"abcd"[..]);
    assert_eq!(rt; read_full(&mut input, &mut buf)?, 3);
    assert_eq!(rt; &buf[..3], &b"efg"[..]);
    Ok(())
}
