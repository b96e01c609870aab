use blink_edge::{
    Failed, Folder, Found, ReadError, Shelf, StdIn, StdOut, Store, StoreError, Taken, read_all,
    write_all,
};
use std::alloc::Global;
use std::fs;
use std::io::{Error, ErrorKind, Read, Result as IoResult, Write};
use std::process::Abort;
use std::test::Fail;

// A reader that gives two bytes, then fails, and then is at its end.
#[derive(Drop)]
struct Broken {
    calls: u8,
}

impl Read for Broken {
    fn read(&mut self, buf: &mut [u8]) -> IoResult<usize> {
        self.calls = self.calls.saturating_add(1);
        if self.calls == 2 {
            return Err(Error::from(ErrorKind::Other));
        }
        if self.calls > 2 || buf.len() < 2 {
            return Ok(0);
        }
        buf[0] = b'a';
        buf[1] = b'b';
        Ok(2)
    }
}

// A writer that takes none of any piece.
#[derive(Drop)]
struct Full;

impl Write for Full {
    fn write(&mut self, _: &[u8]) -> IoResult<usize> {
        Ok(0)
    }

    fn flush(&mut self) -> IoResult<()> {
        Ok(())
    }
}

// A reader of two bytes and a writer that takes all, each call of which the system interrupts so many times before.
#[derive(Drop)]
struct Interrupted {
    times: u32,
    left: u32,
    given: bool,
}

impl Interrupted {
    fn new(times: u32) -> Interrupted {
        Interrupted {
            times,
            left: times,
            given: false,
        }
    }

    // Whether this call is interrupted.
    fn is_interrupted(&mut self) -> bool {
        if self.left == 0 {
            self.left = self.times;
            return false;
        }
        self.left -= 1;
        true
    }
}

impl Read for Interrupted {
    fn read(&mut self, buf: &mut [u8]) -> IoResult<usize> {
        if self.is_interrupted() {
            return Err(Error::from(ErrorKind::Interrupted));
        }
        if self.given || buf.len() < 2 {
            return Ok(0);
        }
        self.given = true;
        buf[0] = b'a';
        buf[1] = b'b';
        Ok(2)
    }
}

impl Write for Interrupted {
    fn write(&mut self, buf: &[u8]) -> IoResult<usize> {
        if self.is_interrupted() {
            return Err(Error::from(ErrorKind::Interrupted));
        }
        Ok(buf.len())
    }

    fn flush(&mut self) -> IoResult<()> {
        Ok(())
    }
}

const TEXT: &str = "from a reader";

// How many bytes are allowed, and how the read of a text of thirteen ends.
const READS: [(u32, &str); 2] = [(13, "whole"), (12, "long")];

// How the read of a reader ends.
fn read_end<R: Read + Drop>(reader: R, limit: u32, bytes: &mut Vec<u8>) -> &'static str {
    bytes.clear();
    match read_all(&mut StdIn::new(reader), u64::from(limit), bytes) {
        Ok(Taken::Whole) => "whole",
        Ok(Taken::Long) => "long",
        Err(ReadError::Failed) => "failed",
        Err(ReadError::Memory) => "memory",
    }
}

#[test]
fn a_reader_is_read_to_its_end(rt: HostRuntime) -> Result<(), Fail> {
    let mut bytes = Vec::new(rt.alloc());
    for (limit, end) in READS {
        assert_eq!(rt; read_end(TEXT.as_bytes(), limit, &mut bytes), end);
        assert_eq!(rt; bytes.as_slice(), TEXT.as_bytes(), "{end}");
    }
    assert_eq!(rt; read_end(Broken { calls: 0 }, 12, &mut bytes), "failed");
    assert_eq!(rt; read_end(Interrupted::new(3), 12, &mut bytes), "whole");
    assert_eq!(rt; bytes.as_slice(), b"ab".as_slice());
    assert_eq!(rt; read_end(Interrupted::new(2_000), 12, &mut bytes), "failed");
    Ok(())
}

// Whether a writer takes a text, and whether the same writer then takes an empty one.
fn write_ends<W: Write + Drop>(writer: W) -> (bool, bool) {
    let mut sink = StdOut::new(writer);
    let first = write_all(&mut sink, TEXT.as_bytes()) == Ok(());
    let second = write_all(&mut sink, b"") == Ok(());
    (first, second)
}

#[test]
fn a_writer_takes_all_or_fails(rt: HostRuntime) {
    assert_eq!(rt; write_ends(Vec::new(rt.alloc())), (true, true));
    assert_eq!(rt; write_ends(Full), (false, true));
    assert_eq!(rt; write_ends(Interrupted::new(3)), (true, true));
    assert_eq!(rt; write_ends(Interrupted::new(2_000)), (false, true));
    assert_eq!(rt;
        write_all(&mut StdOut::new(Full), TEXT.as_bytes()),
        Err(Failed)
    );
}

// A call of a store.
#[derive(Clone, Copy)]
enum Call {
    // Makes a file this text.
    Put(&'static str),
    // Looks for a file of at most so many bytes.
    Fetch(u64),
}

// The name of a file, a call, what it answers, and the text that is fetched.
type Step = (&'static str, Call, &'static str, &'static str);

const FILE: &str = "a_folder_keeps_files.tmp";

// The calls of a folder while the file is there.
const FOLDER: [Step; 6] = [
    (FILE, Call::Put("longer at first"), "put", ""),
    (FILE, Call::Put("four"), "put", ""),
    (FILE, Call::Fetch(4), "whole", "four"),
    (FILE, Call::Fetch(18446744073709551615), "whole", "four"),
    (FILE, Call::Fetch(3), "long", ""),
    ("a_folder_keeps_files.tmp/a", Call::Fetch(9), "failed", ""),
];

// The calls once it is gone.
const GONE: [Step; 7] = [
    (FILE, Call::Fetch(9), "absent", ""),
    ("no_such_folder/a", Call::Fetch(9), "absent", ""),
    ("", Call::Fetch(9), "absent", ""),
    (".", Call::Fetch(9), "failed", ""),
    ("a\0b", Call::Fetch(9), "failed", ""),
    ("", Call::Put("lost"), "failed", ""),
    ("no_such_folder/a", Call::Put("lost"), "failed", ""),
];

// The calls of a shelf whose fourth and sixth call fail.
const SHELF: [Step; 9] = [
    ("a", Call::Fetch(9), "absent", ""),
    ("a", Call::Put("one"), "put", ""),
    ("", Call::Put("two"), "put", ""),
    ("a", Call::Put("lost"), "failed", ""),
    ("a", Call::Put("three"), "put", ""),
    ("a", Call::Fetch(9), "failed", ""),
    ("a", Call::Fetch(4), "long", ""),
    ("a", Call::Fetch(5), "whole", "three"),
    ("", Call::Fetch(3), "whole", "two"),
];

// What a store answers to a call.
fn answer_of<S: Store>(store: &mut S, name: &str, call: Call, bytes: &mut Vec<u8>) -> &'static str {
    let result = match call {
        Call::Put(text) => {
            return match store.put(name, text.as_bytes()) {
                Ok(()) => "put",
                Err(StoreError::Failed) => "failed",
                Err(StoreError::Memory) => "memory",
            };
        }
        Call::Fetch(limit) => store.fetch(name, limit, bytes),
    };
    match result {
        Ok(Found::Whole) => "whole",
        Ok(Found::Absent) => "absent",
        Ok(Found::Long) => "long",
        Err(StoreError::Failed) => "failed",
        Err(StoreError::Memory) => "memory",
    }
}

// Makes the calls, one behind the other, and asserts what each answers.
fn expect_steps<S: Store>(rt: &impl Abort, alloc: Global, store: &mut S, steps: &[Step]) {
    let mut bytes = Vec::new(alloc);
    for (name, call, answer, text) in steps {
        let answered = answer_of(store, name, *call, &mut bytes);
        assert_eq!(rt; answered, *answer, "{name}");
        if answered == "whole" {
            assert_eq!(rt; bytes.as_slice(), text.as_bytes(), "{name}");
        }
    }
}

#[test]
fn a_folder_keeps_files(rt: HostRuntime) -> Result<(), Fail> {
    let mut folder = Folder::new(&rt);
    expect_steps(&rt, rt.alloc(), &mut folder, &FOLDER);
    fs::remove_file(&rt, FILE)?;
    expect_steps(&rt, rt.alloc(), &mut folder, &GONE);
    Ok(())
}

#[test]
fn a_shelf_keeps_files(rt: HostRuntime) -> Result<(), Fail> {
    let alloc = rt.alloc();
    let mut shelf = Shelf::new(alloc, vec![in alloc; 4, 6]?);
    expect_steps(&rt, alloc, &mut shelf, &SHELF);
    Ok(())
}

// The names and the texts that are set, one behind the other.
const SETS: [(&str, &str); 3] = [("a", "one"), ("b", "two"), ("a", "three")];

// The names, and the texts that are then there.
const FILES: [(&str, &str); 2] = [("a", "three"), ("b", "two")];

#[test]
fn a_shelf_is_set_and_shown(rt: HostRuntime) -> Result<(), Fail> {
    let alloc = rt.alloc();
    let mut shelf = Shelf::new(alloc, vec![in alloc; 1]?);
    assert!(rt; shelf.file("a").is_none());
    for (name, text) in SETS {
        shelf.set(name, text.as_bytes().to_vec(alloc)?)?;
    }
    for (name, text) in FILES {
        assert_eq!(rt; shelf.file(name), Some(text.as_bytes()));
    }
    expect_steps(
        &rt,
        alloc,
        &mut shelf,
        &[("b", Call::Put("lost"), "failed", "")],
    );
    assert_eq!(rt; shelf.file("b"), Some(b"two".as_slice()));
    Ok(())
}
