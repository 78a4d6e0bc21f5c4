//! Reading and writing with faults in between, piece by piece.
use super::*;
use std::alloc::Global;
use std::test::Fail;

fn bytes_of(alloc: Global, text: &[u8]) -> Result<Vec<u8>, Fail> {
    Ok(Vec::from_slice(alloc, text)?)
}

#[test]
fn reading_to_the_end_within_and_past_the_limit(rt: HostRuntime) -> Result<(), Fail> {
    let alloc = rt.alloc();
    let mut source = MemSource::new(bytes_of(alloc, b"abcde")?, 2, Vec::new(alloc));
    assert!(rt; read_all(alloc, &mut source, 5) == Ok(bytes_of(alloc, b"abcde")?));
    let mut source = SureSource::new(bytes_of(alloc, b"abcde")?, 2);
    assert!(rt; read_all(alloc, &mut source, 4) == Err(ReadAllErr::TooLong));
    let mut source = MemSource::new(bytes_of(alloc, b"abcde")?, 2, vec![in alloc; 2]?);
    assert!(rt; read_all(alloc, &mut source, 5) == Err(ReadAllErr::ReadFault));
    assert!(rt; read_all(alloc, &mut source, 5) == Ok(bytes_of(alloc, b"cde")?));
    Ok(())
}

#[test]
fn a_failing_write_and_a_full_room_cut_the_text_short(rt: HostRuntime) -> Result<(), Fail> {
    let alloc = rt.alloc();
    let mut sink = MemSink::new(alloc, 9, 4, vec![in alloc; 2]?)?;
    assert!(rt; write_all(&mut sink, b"abcdefgh") == Err(WriteFault));
    assert!(rt; sink.bytes() == b"abcd".as_slice());
    assert!(rt; write_all(&mut sink, b"efghij") == Err(WriteFault));
    assert!(rt; sink.bytes() == b"abcdefghi".as_slice());
    assert!(rt; write_all(&mut SureSink::new(), b"abc") == Ok(()));
    Ok(())
}

#[test]
fn readers_and_writers_of_std(rt: HostRuntime) -> Result<(), Fail> {
    let alloc = rt.alloc();
    let mut source = StdSource::new(b"abc".as_slice());
    let read = read_all(alloc, &mut source, 3).unwrap_or(Vec::new(alloc));
    let mut room = [0u8; 2];
    let mut sink = StdSink::new(room.as_mut_slice());
    let wrote = write_all(&mut sink, &read);
    assert!(rt; wrote == Err(WriteFault));
    Ok(())
}

#[test]
fn errors_print_their_cause(rt: HostRuntime) -> Result<(), Fail> {
    let alloc = rt.alloc();
    let (fault, long, memory) = (
        ReadAllErr::ReadFault,
        ReadAllErr::TooLong,
        ReadAllErr::NoMemory,
    );
    let texts = [
        (format!(in alloc; "{Failed}")?, "the stream failed"),
        (format!(in alloc; "{WriteFault}")?, "write failed"),
        (format!(in alloc; "{fault}")?, "read failed"),
        (format!(in alloc; "{long}")?, "longer than the limit"),
        (format!(in alloc; "{memory}")?, "out of memory"),
    ];
    for (text, wanted) in &texts {
        assert_eq!(rt; text.as_str(), *wanted);
    }
    Ok(())
}
