//! Sources and sinks that fail in mid-stream, and those over the standard library's readers and writers.

use pc_io::{MemSource, ReadFault, StdSink, StdSource, WriteStop, read_all, write_all};
use std::alloc::{AllocError, Global};
use std::io::{self, Read};
use std::test::Fail;

// The bytes 0, 1, 2, .. 250, 0, 1, ..: a period that no chunk of reading shares.
fn pattern(alloc: Global, length: usize) -> Result<Vec<u8>, AllocError> {
    let mut bytes = Vec::new(alloc);
    let mut next = 0;
    for _ in 0..length {
        bytes.push(next)?;
        next = if next < 250 { next + 1 } else { 0 };
    }
    Ok(bytes)
}

#[test]
fn a_failing_read_is_answered_and_counted(rt: HostRuntime) -> Result<(), Fail> {
    // (the call that fails, the bytes that are left then): a call gives at most 8,192 bytes
    for (call, left) in [(1, 20000), (2, 11808), (4, 0)] {
        let failing = [call].to_vec(rt.alloc())?;
        let mut source = MemSource::new(pattern(rt.alloc(), 20000)?, failing);
        let answer = read_all(rt.alloc(), &mut source, 20000);
        assert!(rt; matches!(answer, Err(ReadFault::Failed)), "call {call}");
        assert_eq!(rt; source.left().len(), left, "call {call}");
        assert_eq!(rt; source.fault_count(), 1, "call {call}");
    }
    Ok(())
}

// A reader that gives three bytes and then fails.
#[derive(Drop)]
struct BreaksOff {
    whole: bool,
}

impl Read for BreaksOff {
    fn read(&mut self, buf: &mut [u8]) -> io::Result<usize> {
        if !self.whole || buf.len() < 3 {
            return Err(io::Error::other("the line broke"));
        }
        self.whole = false;
        buf[0] = b'a';
        buf[1] = b'b';
        buf[2] = b'c';
        Ok(3)
    }
}

#[test]
fn the_adapters_pass_bytes_on_and_count_faults(rt: HostRuntime) -> Result<(), Fail> {
    let mut reader = b"a whole reader".as_slice();
    let mut source = StdSource::new(&mut reader);
    let bytes = read_all(rt.alloc(), &mut source, 100)
        .ok()
        .ok_or("refused")?;
    assert_eq!(rt; bytes.as_slice(), b"a whole reader".as_slice());
    assert_eq!(rt; source.fault_count(), 0);

    let mut source = StdSource::new(BreaksOff { whole: true });
    assert!(rt;
        matches!(
            read_all(rt.alloc(), &mut source, 100),
            Err(ReadFault::Failed)
        )
    );
    assert_eq!(rt; source.fault_count(), 1);

    let mut writer = Vec::new(rt.alloc());
    let mut sink = StdSink::new(&mut writer);
    assert_eq!(rt; write_all(&mut sink, b"a whole writer"), Ok(()));
    assert_eq!(rt; sink.fault_count(), 0);
    assert_eq!(rt; writer.as_slice(), b"a whole writer".as_slice());

    // A slice takes what fits, and then nothing.
    let mut room = [0; 4];
    let mut sink = StdSink::new(room.as_mut_slice());
    assert_eq!(rt;
        write_all(&mut sink, b"a full writer"),
        Err(WriteStop { written: 4 })
    );
    assert_eq!(rt; sink.fault_count(), 1);
    assert_eq!(rt; room.as_slice(), b"a fu".as_slice());
    Ok(())
}
