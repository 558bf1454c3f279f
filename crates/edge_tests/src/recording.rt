// Files in memory that record the calls made on them, for the tests of what stands over the runtime.
//
// A call is a line: its name, its path, and its options or numbers. It can be set how many bytes a read
// or a write takes at most, and which call fails.
use std::alloc::{Allocator, Global};
use std::cell::{RefCell, RefMut};
use std::fmt::Display;
use std::fs::{Metadata, OpenFile, OpenOptions};
use std::io;
use std::io::{ErrorKind, Read, Seek, SeekFrom, Write};
use std::rc::Rc;
use std::rt::Files;
use tuple_schema::Memory;

/// A runtime with files and folders of its own, which keeps the calls made on them.
#[derive(Drop)]
pub struct Recording {
    alloc: Global,
    kept: Rc<RefCell<Kept>>,
}

#[derive(Drop)]
struct Kept {
    calls: String,
    entries: Vec<Entry>,
    most: usize,
    due: u64,
}

// What stands at a path. A folder has no bytes.
#[derive(Drop)]
struct Entry {
    path: String,
    bytes: Option<Vec<u8>>,
}

impl Recording {
    /// Holds nothing. Each call takes as many bytes as it is given, and none fails.
    pub fn new(alloc: Global) -> Result<Self, Memory> {
        let kept = RefCell::new(Kept {
            calls: String::new(alloc),
            entries: Vec::new(alloc),
            most: usize::MAX,
            due: 0,
        });
        let kept = Rc::new(alloc, kept)?;
        Ok(Recording { alloc, kept })
    }

    pub fn add_file(&self, path: &str, bytes: &[u8]) -> io::Result<()> {
        let bytes = bytes.to_vec(self.alloc)?;
        self.kept()?.add(self.alloc, path, Some(bytes))
    }

    pub fn add_folder(&self, path: &str) -> io::Result<()> {
        self.kept()?.add(self.alloc, path, None)
    }

    /// From now on a read or a write takes at most so many bytes.
    pub fn set_most(&self, most: usize) -> io::Result<()> {
        self.kept()?.most = most;
        Ok(())
    }

    /// Lets the call with that number fail, counted from 1 from now on, and with 0 none. It does nothing.
    pub fn fail_at(&self, call: u64) -> io::Result<()> {
        self.kept()?.due = call;
        Ok(())
    }

    /// The calls since they were taken last.
    pub fn take_calls(&self) -> io::Result<String> {
        let mut kept = self.kept()?;
        let calls = kept.calls.as_str().to_string(self.alloc)?;
        kept.calls.clear();
        Ok(calls)
    }

    /// The bytes of a file.
    pub fn bytes(&self, path: &str) -> io::Result<Vec<u8>> {
        let mut kept = self.kept()?;
        let place = kept.find(path)?;
        Ok(kept.bytes(place)?.to_vec(self.alloc)?)
    }

    fn kept(&self) -> io::Result<RefMut<'_, Kept>> {
        borrowed(&self.kept)
    }
}

fn borrowed(kept: &RefCell<Kept>) -> io::Result<RefMut<'_, Kept>> {
    match kept.try_borrow_mut() {
        Ok(kept) => Ok(kept),
        Err(_) => Err(io::Error::from(ErrorKind::ResourceBusy)),
    }
}

// Records a call, and fails where it was set to.
fn begin<D: Display + Drop>(kept: &RefCell<Kept>, call: D) -> io::Result<RefMut<'_, Kept>> {
    let mut kept = borrowed(kept)?;
    writeln!(kept.calls, "{call}")?;
    let is_due = kept.due == 1;
    kept.due = kept.due.saturating_sub(1);
    if is_due {
        return Err(io::Error::from(ErrorKind::BrokenPipe));
    }
    Ok(kept)
}

impl Kept {
    fn add(&mut self, alloc: Global, path: &str, bytes: Option<Vec<u8>>) -> io::Result<()> {
        let path = path.to_string(alloc)?;
        self.entries.push(Entry { path, bytes })?;
        Ok(())
    }

    fn find(&self, path: &str) -> io::Result<usize> {
        match self
            .entries
            .iter()
            .position(|entry| entry.path.as_str() == path)
        {
            Some(place) => Ok(place),
            None => Err(io::Error::from(ErrorKind::NotFound)),
        }
    }

    fn metadata(&self, place: usize) -> io::Result<Metadata> {
        match self.entries.get(place) {
            Some(
                Entry {
                    bytes: Some(bytes),
                    ..
                },
            ) => Ok(Metadata::of_file(bytes.len() as u64)),
            Some(Entry { bytes: None, .. }) => Ok(Metadata::of_dir()),
            None => Err(io::Error::from(ErrorKind::NotFound)),
        }
    }

    fn bytes(&mut self, place: usize) -> io::Result<&mut Vec<u8>> {
        match self.entries.get_mut(place) {
            Some(
                Entry {
                    bytes: Some(bytes),
                    ..
                },
            ) => Ok(bytes),
            _ => Err(io::Error::from(ErrorKind::IsADirectory)),
        }
    }
}

/// An open file of a recording.
#[derive(Drop)]
pub struct RecordedFile {
    kept: Rc<RefCell<Kept>>,
    path: String,
    place: usize,
    at: u64,
    how: OpenOptions,
}

// The options that were asked for.
fn options_of(alloc: Global, how: &OpenOptions) -> io::Result<String> {
    let mut words = String::new(alloc);
    for (is_asked, word) in [
        (how.asks_read(), " read"),
        (how.asks_write(), " write"),
        (how.asks_append(), " append"),
        (how.asks_truncate(), " truncate"),
        (how.asks_create(), " create"),
        (how.asks_create_new(), " create_new"),
    ] {
        if is_asked {
            words.push_str(word)?;
        }
    }
    Ok(words)
}

fn unsupported() -> io::Error {
    io::Error::from(ErrorKind::Unsupported)
}

impl Files for Recording {
    type File = RecordedFile;

    type Dir = RecordedFile;

    fn open_file(&self, how: &OpenOptions, path: &str) -> io::Result<RecordedFile> {
        how.check()?;
        let options = options_of(self.alloc, how)?;
        let mut kept = begin(&self.kept, format_args!("open {path}{options}"))?;
        let place = match kept.find(path) {
            Ok(_) if how.asks_create_new() => return Err(io::Error::from(ErrorKind::AlreadyExists)),
            Ok(place) => place,
            Err(_) if how.asks_create() || how.asks_create_new() => {
                let place = kept.entries.len();
                kept.add(self.alloc, path, Some(Vec::new(self.alloc)))?;
                place
            }
            Err(error) => return Err(error),
        };
        if how.asks_truncate() {
            kept.bytes(place)?.clear();
        }
        Ok(RecordedFile {
            kept: self.kept.clone()?,
            path: path.to_string(self.alloc)?,
            place,
            at: 0,
            how: how.clone()?,
        })
    }

    fn open_dir(&self, _path: &str) -> io::Result<RecordedFile> {
        Err(unsupported())
    }

    fn metadata(&self, path: &str) -> io::Result<Metadata> {
        let kept = begin(&self.kept, format_args!("look {path}"))?;
        let place = kept.find(path)?;
        kept.metadata(place)
    }

    fn symlink_metadata(&self, _path: &str) -> io::Result<Metadata> {
        Err(unsupported())
    }

    fn copy(&self, _from: &str, _to: &str) -> io::Result<u64> {
        Err(unsupported())
    }

    fn rename(&self, _from: &str, _to: &str) -> io::Result<()> {
        Err(unsupported())
    }

    fn remove_file(&self, _path: &str) -> io::Result<()> {
        Err(unsupported())
    }

    fn create_dir(&self, _path: &str) -> io::Result<()> {
        Err(unsupported())
    }

    fn remove_dir(&self, _path: &str) -> io::Result<()> {
        Err(unsupported())
    }

    fn remove_dir_all<B: Allocator>(&self, _alloc: B, _path: &str) -> io::Result<()> {
        Err(unsupported())
    }
}

impl OpenFile for RecordedFile {
    fn metadata(&self) -> io::Result<Metadata> {
        let kept = begin(&self.kept, format_args!("size {}", self.path))?;
        kept.metadata(self.place)
    }

    fn set_len(&self, _size: u64) -> io::Result<()> {
        Err(unsupported())
    }

    fn sync_all(&self) -> io::Result<()> {
        begin(&self.kept, format_args!("sync {}", self.path))?;
        Ok(())
    }

    fn sync_data(&self) -> io::Result<()> {
        Err(unsupported())
    }
}

impl Seek for RecordedFile {
    fn seek(&mut self, to: SeekFrom) -> io::Result<u64> {
        let SeekFrom::Start(at) = to else {
            return Err(unsupported());
        };
        begin(&self.kept, format_args!("seek {} {at}", self.path))?;
        self.at = at;
        Ok(at)
    }
}

impl Read for RecordedFile {
    fn read(&mut self, buf: &mut [u8]) -> io::Result<usize> {
        let mut kept = begin(&self.kept, format_args!("read {} {}", self.path, buf.len()))?;
        if !self.how.asks_read() {
            return Err(io::Error::from(ErrorKind::PermissionDenied));
        }
        let room = buf.len().min(kept.most);
        let bytes = kept.bytes(self.place)?.as_slice();
        let rest = bytes.get(self.at as usize..).unwrap_or(&[]);
        let count = rest.len().min(room);
        buf[..count].copy_from_slice(&rest[..count]);
        self.at = self.at.saturating_add(count as u64);
        Ok(count)
    }
}

impl Write for RecordedFile {
    fn write(&mut self, buf: &[u8]) -> io::Result<usize> {
        let mut kept = begin(
            &self.kept,
            format_args!("write {} {}", self.path, buf.len()),
        )?;
        if !self.how.asks_write() && !self.how.asks_append() {
            return Err(io::Error::from(ErrorKind::PermissionDenied));
        }
        let piece = &buf[..buf.len().min(kept.most)];
        let bytes = kept.bytes(self.place)?;
        let at = if self.how.asks_append() {
            bytes.len()
        } else {
            self.at as usize
        };
        if at > bytes.len() {
            bytes.resize(at, 0)?;
        }
        bytes.resize(bytes.len().max(at + piece.len()), 0)?;
        bytes[at..at + piece.len()].copy_from_slice(piece);
        self.at = (at as u64).saturating_add(piece.len() as u64);
        Ok(piece.len())
    }

    fn flush(&mut self) -> io::Result<()> {
        Ok(())
    }
}
