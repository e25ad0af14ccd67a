//! Opened files, one of whose reads may fail.

use crate::system_fault::SystemFault;
use std::fs::{File, Metadata, OpenFile};
use std::io;
use std::io::{Read, Seek, SeekFrom, Write};

/// A read that fails.
#[derive(Clone, Copy, Drop)]
pub struct FailingRead {
    /// How many bytes the reads before it give.
    pub after: usize,
    pub fault: SystemFault,
}

/// A file of the system. Where a read is to fail, that read alone fails, and the file goes on behind it.
#[derive(Drop)]
pub struct PlayedFile {
    file: File,
    /// The read that is still to fail.
    failing: Option<FailingRead>,
}

impl PlayedFile {
    /// As this file, but for the read that fails, if there is one.
    pub fn new(file: File, failing: Option<FailingRead>) -> PlayedFile {
        PlayedFile { file, failing }
    }
}

impl Read for PlayedFile {
    fn read(&mut self, buf: &mut [u8]) -> io::Result<usize> {
        let Some(FailingRead { after, fault }) = self.failing else {
            return self.file.read(buf);
        };
        if after == 0 {
            self.failing = None;
            return Err(fault.error());
        }
        let room = after.min(buf.len());
        let count = self.file.read(&mut buf[..room])?;
        self.failing = Some(FailingRead {
            after: after - count,
            fault,
        });
        Ok(count)
    }
}

impl Write for PlayedFile {
    fn write(&mut self, buf: &[u8]) -> io::Result<usize> {
        self.file.write(buf)
    }

    fn flush(&mut self) -> io::Result<()> {
        self.file.flush()
    }
}

impl Seek for PlayedFile {
    fn seek(&mut self, to: SeekFrom) -> io::Result<u64> {
        self.file.seek(to)
    }
}

impl OpenFile for PlayedFile {
    fn metadata(&self) -> io::Result<Metadata> {
        self.file.metadata()
    }

    fn set_len(&self, size: u64) -> io::Result<()> {
        self.file.set_len(size)
    }

    fn sync_all(&self) -> io::Result<()> {
        self.file.sync_all()
    }

    fn sync_data(&self) -> io::Result<()> {
        self.file.sync_data()
    }
}
