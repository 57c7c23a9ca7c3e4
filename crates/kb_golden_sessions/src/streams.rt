//! Readers and writers that fail.
use std::io;
use std::io::{ErrorKind, Read, Write};

/// Gives its bytes, at most three a call, and then fails.
#[derive(Drop)]
pub struct FailingReader<'a> {
    pub left: &'a [u8],
}

impl Read for FailingReader<'_> {
    fn read(&mut self, buf: &mut [u8]) -> io::Result<usize> {
        let count = self.left.len().min(buf.len()).min(3);
        if count == 0 {
            return Err(io::Error::from(ErrorKind::BrokenPipe));
        }
        buf[..count].copy_from_slice(&self.left[..count]);
        self.left = &self.left[count..];
        Ok(count)
    }
}

/// Takes at most two bytes a call until `room` bytes are taken. Then it fails, or takes none.
#[derive(Drop)]
pub struct LimitedWriter {
    pub taken: Vec<u8>,
    pub room: usize,
    pub fails: bool,
}

impl Write for LimitedWriter {
    fn write(&mut self, buf: &[u8]) -> io::Result<usize> {
        let count = buf.len().min(2).min(self.room);
        if count == 0 && self.fails {
            return Err(io::Error::from(ErrorKind::BrokenPipe));
        }
        self.taken.extend_from_slice(&buf[..count])?;
        self.room -= count;
        Ok(count)
    }

    fn flush(&mut self) -> io::Result<()> {
        Ok(())
    }
}
