//! Sinks and shelves: the real ones, and what no clause says of them.

use cdp_edge::{FileShelf, MemShelf, MemSink, Shelf, ShelfFault, Sink, SinkFault, WriterSink, put};
use std::io::{ErrorKind, Write};
use std::test::Fail;
use std::{fs, io};

// Answers each write by a letter: `i` interrupted, `m` want of memory, `b` broken, a digit the number of bytes taken.
// Behind the letters it takes all.
#[derive(Drop)]
struct ListedWriter {
    answers: &'static [u8],
    at: usize,
}

impl Write for ListedWriter {
    fn write(&mut self, piece: &[u8]) -> io::Result<usize> {
        let Some(answer) = self.answers.get(self.at) else {
            return Ok(piece.len());
        };
        self.at = self.at.saturating_add(1);
        match *answer {
            b'i' => Err(io::Error::from(ErrorKind::Interrupted)),
            b'm' => Err(io::Error::from(ErrorKind::OutOfMemory)),
            b'b' => Err(io::Error::from(ErrorKind::BrokenPipe)),
            digit => Ok(piece.len().min(digit.saturating_sub(b'0') as usize)),
        }
    }

    fn flush(&mut self) -> io::Result<()> {
        Ok(())
    }
}

#[test]
fn a_writer_is_tried_again_where_it_was_interrupted(rt: HostRuntime) {
    let mut sink = WriterSink::new(ListedWriter {
        answers: b"ii20mb",
        at: 0,
    });
    assert_eq!(rt; sink.write(b"abc"), Ok(2));
    assert_eq!(rt; sink.write(b"c"), Err(SinkFault::Failed));
    assert_eq!(rt; sink.write(b"c"), Err(SinkFault::Memory));
    assert_eq!(rt; sink.write(b"c"), Err(SinkFault::Failed));
    assert_eq!(rt; sink.write(b"c"), Ok(1));
    assert_eq!(rt; sink.write(b""), Ok(0));
}

#[test]
fn pieces_are_taken(rt: HostRuntime) -> Result<(), Fail> {
    let mut bytes = Vec::new(rt.alloc());
    let mut writer = WriterSink::new(&mut bytes);
    assert_eq!(rt; put(&mut writer, b"a line\n"), Ok(()));
    drop(writer);
    assert_eq!(rt; bytes.as_slice(), b"a line\n".as_slice());
    let mut sink = MemSink::new(vec![in rt.alloc(); 2]?);
    assert_eq!(rt; put(&mut sink, b"one\n"), Ok(()));
    assert_eq!(rt; put(&mut sink, b"two\n"), Err(SinkFault::Failed));
    assert_eq!(rt; put(&mut sink, b"three\n"), Ok(()));
    assert_eq!(rt; sink.taken(), b"one\nthree\n".as_slice());
    Ok(())
}

#[test]
fn shelves_are_read(rt: HostRuntime) -> Result<(), Fail> {
    let alloc = rt.alloc();
    let mut files = Vec::new(alloc);
    files.push((String::from_str(alloc, "a")?, b"first".to_vec(alloc)?))?;
    let mut memory = MemShelf::new(files, vec![in alloc; 3]?);
    assert_eq!(rt; memory.read(alloc, "a")?.as_slice(), b"first".as_slice());
    assert_eq!(rt; memory.read(alloc, "b").err(), Some(ShelfFault::NotThere));
    assert_eq!(rt; memory.read(alloc, "a").err(), Some(ShelfFault::Failed));

    fs::write(&rt, "host_tests.js", b"1;\n".as_slice())?;
    let mut shelf = FileShelf::new(alloc, rt);
    let there = shelf.read(alloc, "host_tests.js");
    fs::remove_file(&rt, "host_tests.js")?;
    let gone = shelf.read(alloc, "host_tests.js");
    let folder = shelf.read(alloc, ".");
    assert_eq!(rt; there?.as_slice(), b"1;\n".as_slice());
    assert_eq!(rt; gone.err(), Some(ShelfFault::NotThere));
    assert_eq!(rt; folder.err(), Some(ShelfFault::Failed));
    Ok(())
}
