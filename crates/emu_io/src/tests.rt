ghost use Rattle.std.specs.Prelude.{◌≤◌};

use crate::{
    Failed, MemSink, MemSource, ReadRefusal, Source, SureSink, SureSource, WriteFault, read_all,
    write_all,
};
use std::alloc::{AllocError, Global};
use std::test::Fail;
use word_ops::List;

fn list(alloc: Global, bytes: &[u8]) -> Result<List<u8>, AllocError> {
    Ok(List::from_vec(Vec::from_slice(alloc, bytes)?))
}

fn numbers(alloc: Global, numbers: &[u64]) -> Result<List<u64>, AllocError> {
    Ok(List::from_vec(Vec::from_slice(alloc, numbers)?))
}

// What is read of `bytes`, at most `step` a call, where the calls in `failing` fail.
fn read_memory(
    alloc: Global,
    bytes: &[u8],
    step: usize,
    failing: &[u64],
    limit: usize,
) -> Result<Result<List<u8>, ReadRefusal>, AllocError>
    requires { 1 ≤ step }
{
    let bytes = list(alloc, bytes)?;
    let failing = numbers(alloc, failing)?;
    let mut source = MemSource::new(bytes, step, failing);
    Ok(read_all(alloc, &mut source, limit))
}

fn is_bytes(read: &Result<List<u8>, ReadRefusal>, bytes: &[u8]) -> bool {
    match read {
        Ok(read) => read.as_slice() == bytes,
        Err(_) => false,
    }
}

fn is_refusal(read: &Result<List<u8>, ReadRefusal>, refusal: ReadRefusal) -> bool {
    match read {
        Ok(_) => false,
        Err(found) => *found == refusal,
    }
}

#[test]
fn reads_all_up_to_the_limit(rt: HostRuntime) -> Result<(), Fail> {
    let alloc = rt.alloc();
    for step in [1, 3, 7, 1_000_000] {
        for limit in [7, 8, usize::MAX] {
            let read = read_memory(alloc, b"abcdefg", step, &[], limit)?;
            assert!(rt; is_bytes(&read, b"abcdefg"), "step {step}, limit {limit}");
        }
        for limit in [0, 3, 6] {
            let read = read_memory(alloc, b"abcdefg", step, &[], limit)?;
            let too_long = is_refusal(&read, ReadRefusal::TooLong);
            assert!(rt; too_long, "step {step}, limit {limit}");
        }
    }
    assert!(rt; is_bytes(&read_memory(alloc, b"", 1, &[], 0)?, b""));
    Ok(())
}

// Three bytes are read by the calls 0 to 2, and call 3 finds the end.
#[test]
fn each_failing_read_is_a_fault(rt: HostRuntime) -> Result<(), Fail> {
    let alloc = rt.alloc();
    for call in [0, 1, 2, 3] {
        let read = read_memory(alloc, b"abc", 1, &[call], 3)?;
        assert!(rt; is_refusal(&read, ReadRefusal::Fault), "call {call}");
    }
    assert!(rt; is_bytes(&read_memory(alloc, b"abc", 1, &[4], 3)?, b"abc"));
    Ok(())
}

// Call 3 gives the byte beyond the limit, and no call comes behind it.
#[test]
fn no_call_comes_behind_too_long(rt: HostRuntime) -> Result<(), Fail> {
    let alloc = rt.alloc();
    let read = read_memory(alloc, b"abcdef", 1, &[4, 5, 6], 3)?;
    assert!(rt; is_refusal(&read, ReadRefusal::TooLong));
    Ok(())
}

#[test]
fn a_source_goes_on_behind_a_fault(rt: HostRuntime) -> Result<(), Fail> {
    let alloc = rt.alloc();
    let mut source = MemSource::new(list(alloc, b"abcde")?, 3, numbers(alloc, &[1])?);
    let mut buf = [b'-'; 4];
    assert_eq!(rt; source.take(&mut buf), Ok(3));
    assert_eq!(rt; &buf, b"abc-");
    assert_eq!(rt; source.take(&mut buf), Err(Failed));
    assert_eq!(rt; &buf, b"abc-");
    assert_eq!(rt; source.take(&mut buf), Ok(2));
    assert_eq!(rt; &buf, b"dec-");
    assert_eq!(rt; source.take(&mut buf), Ok(0));
    Ok(())
}

#[test]
fn reads_more_than_a_piece(rt: HostRuntime) -> Result<(), Fail> {
    let alloc = rt.alloc();
    let many = vec![in alloc; b'x'; 200_001]?;
    let mut source = SureSource::new(List::from_vec(many));
    let read = read_all(alloc, &mut source, 200_001);
    assert!(rt;
        match &read {
            Ok(read) => read.len() == 200_001,
            Err(_) => false,
        }
    );
    Ok(())
}

#[test]
fn writes_all(rt: HostRuntime) -> Result<(), Fail> {
    let alloc = rt.alloc();
    let bytes = list(alloc, b"abcdefg")?;
    for step in [1, 3, 7, 1_000_000] {
        let mut sink = MemSink::new(alloc, step, List::new(alloc));
        assert_eq!(rt; write_all(&mut sink, &bytes), Ok(()), "step {step}");
        assert_eq!(rt;
            sink.bytes().as_slice(),
            b"abcdefg".as_slice(),
            "step {step}"
        );
    }
    // No call is made for an empty list, so the failing call 0 is not reached.
    let mut sink = MemSink::new(alloc, 1, numbers(alloc, &[0])?);
    assert_eq!(rt; write_all(&mut sink, &List::new(alloc)), Ok(()));
    Ok(())
}

#[test]
fn a_failing_write_leaves_a_prefix(rt: HostRuntime) -> Result<(), Fail> {
    let alloc = rt.alloc();
    let text = b"14\nend: done 0\n";
    let bytes = list(alloc, text)?;
    for call in 0..text.len() {
        let mut sink = MemSink::new(alloc, 1, numbers(alloc, &[call as u64])?);
        let fault = WriteFault { written: call };
        assert_eq!(rt; write_all(&mut sink, &bytes), Err(fault));
        assert_eq!(rt; sink.bytes().as_slice(), &text[..call]);
    }
    // Three bytes a call: call 1 fails behind the first three.
    let mut sink = MemSink::new(alloc, 3, numbers(alloc, &[1])?);
    assert_eq!(rt;
        write_all(&mut sink, &bytes),
        Err(WriteFault { written: 3 })
    );
    assert_eq!(rt; sink.bytes().as_slice(), b"14\n".as_slice());
    Ok(())
}

#[test]
fn a_sure_sink_keeps_what_it_has_room_for(rt: HostRuntime) -> Result<(), Fail> {
    let alloc = rt.alloc();
    let mut sink = SureSink::with_room(alloc, 5)?;
    assert_eq!(rt; write_all(&mut sink, &list(alloc, b"abc")?), Ok(()));
    assert_eq!(rt; sink.bytes(), b"abc".as_slice());
    assert_eq!(rt; write_all(&mut sink, &list(alloc, b"defg")?), Ok(()));
    assert_eq!(rt; sink.bytes(), b"abcde".as_slice());
    assert_eq!(rt; sink.into_bytes().as_slice(), b"abcde".as_slice());
    Ok(())
}
