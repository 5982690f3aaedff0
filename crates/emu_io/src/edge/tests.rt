use crate::{ReadRefusal, StdSink, StdSource, WriteFault, read_all, write_all};
use std::alloc::{AllocError, Global};
use std::io;
use std::io::{ErrorKind, Read, Write};
use std::test::Fail;
use word_ops::List;

// Reads and writes nothing: it fails, or takes no byte.
#[derive(Clone, Copy)]
enum Broken {
    Fails,
    TakesNothing,
}

impl Read for Broken {
    fn read(&mut self, _buf: &mut [u8]) -> io::Result<usize> {
        Err(io::Error::from(ErrorKind::Interrupted))
    }
}

impl Write for Broken {
    fn write(&mut self, _buf: &[u8]) -> io::Result<usize> {
        match self {
            Broken::Fails => Err(io::Error::from(ErrorKind::BrokenPipe)),
            Broken::TakesNothing => Ok(0),
        }
    }

    fn flush(&mut self) -> io::Result<()> {
        Ok(())
    }
}

fn text(alloc: Global) -> Result<List<u8>, AllocError> {
    Ok(List::from_vec(Vec::from_slice(alloc, b"abcdef")?))
}

#[test]
fn reads_a_reader(rt: HostRuntime) -> Result<(), Fail> {
    let alloc = rt.alloc();
    let mut source = StdSource::new(b"abcdef".as_slice());
    match read_all(alloc, &mut source, 6) {
        Ok(bytes) => assert_eq!(rt; bytes.as_slice(), b"abcdef".as_slice()),
        Err(refusal) => assert!(rt; false, "{refusal:?}"),
    }
    Ok(())
}

#[test]
fn an_interrupted_read_is_a_fault(rt: HostRuntime) {
    let mut source = StdSource::new(Broken::Fails);
    let read = read_all(rt.alloc(), &mut source, 6);
    assert!(rt; matches!(&read, Err(ReadRefusal::Fault)));
}

#[test]
fn writes_to_a_writer(rt: HostRuntime) -> Result<(), Fail> {
    let alloc = rt.alloc();
    let bytes = text(alloc)?;
    let mut written: Vec<u8> = Vec::new(alloc);
    let mut sink = StdSink::new(&mut written);
    assert_eq!(rt; write_all(&mut sink, &bytes), Ok(()));
    drop(sink);
    assert_eq!(rt; written.as_slice(), b"abcdef".as_slice());
    // A writer with room for four bytes takes no more.
    let mut room = [b'-'; 4];
    let mut sink = StdSink::new(room.as_mut_slice());
    assert_eq!(rt;
        write_all(&mut sink, &bytes),
        Err(WriteFault { written: 4 })
    );
    drop(sink);
    assert_eq!(rt; &room, b"abcd");
    Ok(())
}

#[test]
fn a_write_that_takes_nothing_is_a_fault(rt: HostRuntime) -> Result<(), Fail> {
    let bytes = text(rt.alloc())?;
    for writer in [Broken::Fails, Broken::TakesNothing] {
        let mut sink = StdSink::new(writer);
        assert_eq!(rt;
            write_all(&mut sink, &bytes),
            Err(WriteFault { written: 0 })
        );
    }
    Ok(())
}
