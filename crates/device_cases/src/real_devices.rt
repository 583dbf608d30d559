use cm_outside::{Clock, Failed, Sink, Source, Status, Store, StoreFault};
use cm_plain::Str;
use devices::{FolderStore, StandardInput, StandardOutput, SystemClock, complaint};
use std::alloc::{AllocError, Global};
use std::io::{self, ErrorKind, Read, Write};
use std::test::Fail;

#[test]
fn each_status_has_its_line(rt: HostRuntime) {
    let cases = [
        (Status::Ok, None),
        (
            Status::Usage,
            Some("ccm: usage: ccm replay | ccm edit FILE ROWS COLS | ccm make N | ccm collab"),
        ),
        (Status::ReadFault, Some("ccm: read fault")),
        (Status::WriteFault, Some("ccm: write fault")),
        (Status::StoreFault, Some("ccm: store fault")),
        (Status::NoMemory, Some("ccm: out of memory")),
        (Status::TooMuch, Some("ccm: input too long")),
        (Status::BadFile, Some("ccm: file is not text")),
    ];
    for (status, line) in cases {
        assert!(rt; complaint(status) == line);
    }
}

/// A reader that gives one byte a call, up to a number of them, and fails then.
#[derive(Drop)]
struct Reader {
    left: u8,
}

impl Read for Reader {
    fn read(&mut self, buf: &mut [u8]) -> io::Result<usize> {
        if self.left == 0 {
            return Err(ErrorKind::Other.into());
        }
        match buf.first_mut() {
            Some(byte) => {
                self.left -= 1;
                *byte = b'a';
                Ok(1)
            }
            None => Ok(0),
        }
    }
}

#[test]
fn standard_input_gives_what_its_reader_gives(rt: HostRuntime) {
    let mut source = StandardInput::new(Reader { left: 1 });
    let mut room = [0u8; 4];
    assert!(rt; source.read(&mut room) == Ok(1));
    assert!(rt; room[0] == b'a');
    assert!(rt; source.read(&mut room) == Err(Failed));
}

/// A writer that keeps what it takes, and takes no byte once it has this many.
#[derive(Drop)]
struct Writer {
    kept: Vec<u8>,
    most: usize,
}

impl Write for Writer {
    fn write(&mut self, buf: &[u8]) -> io::Result<usize> {
        match buf.first() {
            Some(byte) if self.kept.len() < self.most => {
                self.kept.push(*byte)?;
                Ok(1)
            }
            _ => Ok(0),
        }
    }

    fn flush(&mut self) -> io::Result<()> {
        Ok(())
    }
}

#[test]
fn standard_output_takes_what_its_writer_takes(rt: HostRuntime) {
    let mut sink = StandardOutput::new(Writer {
        kept: Vec::new(rt.alloc()),
        most: 1,
    });
    assert!(rt; sink.write(b"bc") == Ok(1));
    assert!(rt; sink.write(b"") == Ok(0));
    assert!(rt; sink.write(b"c") == Err(Failed));
}

/// Whether a store loads these bytes under a name.
fn loads<D: Store>(
    alloc: Global,
    store: &mut D,
    name: &str,
    want: Option<&[u8]>,
) -> Result<bool, StoreFault> {
    let Ok(name) = Str::of_text(alloc, name) else {
        return Err(StoreFault::NoMemory);
    };
    let found = store.load(&name)?;
    Ok(match (&found, want) {
        (None, None) => true,
        (Some(found), Some(want)) => found.as_slice() == want,
        _ => false,
    })
}

#[test]
fn a_folder_keeps_what_is_saved(rt: HostRuntime) -> Result<(), Fail> {
    let alloc = rt.alloc();
    let mut store = FolderStore::new(&rt);
    let name = Str::of_text(alloc, "saved.txt")?;
    assert!(rt; loads(alloc, &mut store, "saved.txt", None) == Ok(true));
    assert!(rt; store.save(&name, b"one") == Ok(()));
    assert!(rt; store.save(&name, b"two") == Ok(()));
    assert!(rt; loads(alloc, &mut store, "saved.txt", Some(b"two")) == Ok(true));
    assert!(rt; loads(alloc, &mut store, "saved.txt.ccm-new", None) == Ok(true));
    assert!(rt; loads(alloc, &mut store, "../saved.txt", None) == Err(StoreFault::Failed));
    assert!(rt; loads(alloc, &mut store, "/etc/hostname", None) == Err(StoreFault::Failed));
    Ok(())
}

#[test]
fn a_failed_save_leaves_no_neighbour(rt: HostRuntime) -> Result<(), Fail> {
    let alloc = rt.alloc();
    let mut store = FolderStore::new(&rt);
    let name = Str::of_text(alloc, ".")?;
    assert!(rt; store.save(&name, b"one") == Err(StoreFault::Failed));
    assert!(rt; loads(alloc, &mut store, "..ccm-new", None) == Ok(true));
    Ok(())
}

#[test]
fn the_system_clock_tells_milliseconds(rt: HostRuntime) {
    let mut clock = SystemClock::new(&rt);
    let first = clock.now();
    assert!(rt; first > 1_600_000_000_000);
    assert!(rt; clock.now() < first.saturating_add(86_400_000));
}
