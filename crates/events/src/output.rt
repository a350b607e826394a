// Standard output, until its reader is gone.
ghost use Rattle.std.specs.Prelude.{◌≡◌, is_none};

use std::io;
use std::io::{ErrorKind, Print, Stdout, Write};

// EPIPE of Linux.
const BROKEN_PIPE: i32 = 32;

#[derive(Drop)]
pub struct Output {
    // None once its reader has closed the pipe, which takes nothing from then on.
    stdout: Option<Stdout>,
}

impl From<Stdout> for Output {
    fn from(stdout: Stdout) -> Output {
        Output {
            stdout: Some(stdout),
        }
    }
}

impl Output {
    pub fn is_closed(&self) -> bool
        ensures { result ≡ is_none self.now.stdout }
    {
        self.stdout.is_none()
    }

    // What an output that is full or was closed from the start does not take is lost.
    fn note(&mut self, e: &io::Error) {
        if e.raw_os_error() == Some(BROKEN_PIPE) {
            self.stdout = None;
        }
    }
}

impl Write for Output {
    fn write(&mut self, buf: &[u8]) -> io::Result<usize> {
        let Some(stdout) = &self.stdout else {
            return Err(io::Error::from(ErrorKind::BrokenPipe));
        };
        let written = stdout.write_some(buf);
        if let Err(e) = &written {
            self.note(e);
        }
        written
    }

    // An error once the output is closed.
    fn flush(&mut self) -> io::Result<()> {
        if self.is_closed() {
            return Err(io::Error::from(ErrorKind::BrokenPipe));
        }
        Ok(())
    }

    // Standard output's own: it asks for no kind of an error, which std has a table for.
    fn write_all(&mut self, buf: &[u8]) -> io::Result<()> {
        let Some(stdout) = &self.stdout else {
            return Err(io::Error::from(ErrorKind::BrokenPipe));
        };
        let written = Print::write_all(stdout, buf);
        if let Err(e) = &written {
            self.note(e);
        }
        written
    }
}
