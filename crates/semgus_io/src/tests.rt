use crate::{
    Files, HostFiles, HostSink, MemoryFiles, MemorySink, Sink, SteadyFiles, SteadySink, Words,
    put_all,
};
use std::test::Fail;

#[test]
fn a_file_is_taken_in_pieces(rt: HostRuntime) -> Result<(), Fail> {
    let mut files = MemoryFiles::new(rt.alloc());
    files.add("a", b"old")?;
    files.add("a", b"hello")?;
    files.piece(3);
    let mut buf = [0u8; 4];
    assert!(rt; files.begin("b").is_err());
    assert_eq!(rt; files.take(&mut buf), Ok(0));
    assert!(rt; files.begin("a").is_ok());
    assert_eq!(rt; files.take(&mut buf), Ok(3));
    assert_eq!(rt; buf[..3], b"hel"[..]);
    assert_eq!(rt; files.take(&mut buf), Ok(2));
    assert_eq!(rt; buf[..2], b"lo"[..]);
    assert_eq!(rt; files.take(&mut buf), Ok(0));
    Ok(())
}

#[test]
fn the_calls_that_are_to_fail_do(rt: HostRuntime) -> Result<(), Fail> {
    let mut files = MemoryFiles::new(rt.alloc());
    files.add("a", b"ab")?;
    files.piece(1);
    files.fail_begin(1)?;
    files.fail_take(2)?;
    let mut buf = [0u8; 4];
    assert!(rt; files.begin("a").is_err());
    assert!(rt; files.begin("a").is_ok());
    assert_eq!(rt; files.take(&mut buf), Ok(1));
    assert!(rt; files.take(&mut buf).is_err());
    assert_eq!(rt; files.take(&mut buf), Ok(1));
    assert_eq!(rt; buf[0], b'b');
    Ok(())
}

#[test]
fn a_put_that_fails_leaves_the_pieces_before_it(rt: HostRuntime) -> Result<(), Fail> {
    let mut sink = MemorySink::new(rt.alloc(), 100)?;
    sink.piece(3);
    sink.fail_put(2)?;
    assert!(rt; put_all(&mut sink, b"answer").is_err());
    assert_eq!(rt; sink.written(), b"ans".as_slice());
    assert!(rt; put_all(&mut sink, b"wer").is_ok());
    assert_eq!(rt; sink.written(), b"answer".as_slice());
    Ok(())
}

#[test]
fn a_sink_without_room_fails(rt: HostRuntime) -> Result<(), Fail> {
    let mut sink = MemorySink::new(rt.alloc(), 2)?;
    assert_eq!(rt; sink.put(b"abc"), Ok(2));
    assert!(rt; sink.put(b"c").is_err());
    assert_eq!(rt; sink.written(), b"ab".as_slice());
    Ok(())
}

#[test]
fn calls_of_files_are_counted_from_their_making(rt: HostRuntime) -> Result<(), Fail> {
    let mut files = MemoryFiles::new(rt.alloc());
    files.add("a", b"ab")?;
    files.fail_begin(2)?;
    files.fail_take(2)?;
    let mut buf = [0u8; 1];
    assert!(rt; files.begin("a").is_ok());
    assert_eq!(rt; files.take(&mut buf), Ok(1));
    files.add("b", b"c")?;
    files.piece(1);
    files.fail_begin(9)?;
    files.fail_take(9)?;
    assert!(rt; files.begin("a").is_err());
    assert!(rt; files.take(&mut buf).is_err());
    assert!(rt; files.begin("a").is_ok());
    Ok(())
}

#[test]
fn puts_are_counted_from_the_making_of_the_sink(rt: HostRuntime) -> Result<(), Fail> {
    let mut sink = MemorySink::new(rt.alloc(), 100)?;
    sink.fail_put(2)?;
    assert_eq!(rt; sink.put(b"a"), Ok(1));
    sink.piece(1);
    sink.fail_put(9)?;
    assert!(rt; sink.put(b"b").is_err());
    assert_eq!(rt; sink.put(b"bc"), Ok(1));
    assert_eq!(rt; sink.written(), b"ab".as_slice());
    Ok(())
}

#[test]
fn steady_files_fail_at_names_that_are_not_held(rt: HostRuntime) -> Result<(), Fail> {
    let mut files = SteadyFiles::new(rt.alloc());
    files.add("a", b"old")?;
    files.add("a", b"hello")?;
    files.piece(3);
    let mut buf = [0u8; 4];
    assert!(rt; files.begin("b").is_err());
    assert_eq!(rt; files.take(&mut buf), Ok(0));
    assert!(rt; files.begin("a").is_ok());
    assert_eq!(rt; files.take(&mut buf), Ok(3));
    assert_eq!(rt; buf[..3], b"hel"[..]);
    assert_eq!(rt; files.take(&mut buf), Ok(2));
    assert_eq!(rt; buf[..2], b"lo"[..]);
    assert_eq!(rt; files.take(&mut buf), Ok(0));
    Ok(())
}

#[test]
fn a_steady_sink_fails_where_it_is_full(rt: HostRuntime) {
    let mut room = [0u8; 3];
    {
        let mut sink = SteadySink::new(&mut room);
        assert_eq!(rt; sink.put(b"ab"), Ok(2));
        assert_eq!(rt; sink.put(b"cd"), Ok(1));
        assert!(rt; sink.put(b"d").is_err());
    }
    assert_eq!(rt; room, *b"abc");
}

#[test]
fn words_are_kept_in_order(rt: HostRuntime) -> Result<(), Fail> {
    let mut words = Words::new(rt.alloc());
    words.push("solve")?;
    words.push("a b")?;
    assert_eq!(rt; words.len(), 2);
    assert!(rt; words.get(1) == Some("a b"));
    assert!(rt; words.get(2).is_none());
    Ok(())
}

#[test]
fn host_files_fail_at_no_file_and_at_a_folder(rt: HostRuntime) {
    let mut files = HostFiles::new(&rt);
    let mut buf = [0u8; 4];
    assert!(rt; files.begin("no/such/file").is_err());
    assert!(rt; files.begin("/dev/null").is_ok());
    assert_eq!(rt; files.take(&mut buf), Ok(0));
    assert!(rt; files.begin("/").is_err() || files.take(&mut buf).is_err());
}

#[test]
fn a_host_sink_takes_bytes(rt: HostRuntime) {
    let mut sink = HostSink::new(&rt);
    assert!(rt; put_all(&mut sink, b"a line\n").is_ok());
}
