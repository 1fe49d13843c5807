// A report on its way out. Each line is a write of its own, as with `println!`, so that a write that is refused leaves whole lines,
// and lines that several programs write to one pipe stay whole.
ghost use Rattle.std.specs.Prelude.{◌≡◌, ◌≤◌};

use std::io::Write;
use std::{fmt, io, mem};

// The bytes of a line that `println!` writes at once.
const ROOM: usize = 1024;

#[derive(Drop)]
struct Lines<'a, R> {
    rt: &'a R,
    bytes: [u8; ROOM],
    held: usize,
    ghost inside: { held ≤ 1024 },
}

impl<R: Print> Write for Lines<'_, R> {
    fn write(&mut self, bytes: &[u8]) -> io::Result<usize> {
        self.write_all(bytes)?;
        Ok(bytes.len())
    }

    fn flush(&mut self) -> io::Result<()>
        ensures emptied { self.new.held ≡ 0 }
    {
        let held = mem::take(&mut self.held);
        Print::write_all(self.rt, &self.bytes[..held])
    }

    fn write_all(&mut self, bytes: &[u8]) -> io::Result<()> {
        for byte in bytes {
            if self.held == ROOM {
                self.flush()?;
            }
            self.bytes[self.held] = *byte;
            self.held += 1;
            if *byte == b'\n' {
                self.flush()?;
            }
        }
        Ok(())
    }
}

pub(crate) fn print_lines<R: Print, T: fmt::Display + Drop>(rt: &R, report: T) -> io::Result<()> {
    let mut lines = Lines {
        rt,
        bytes: [0; ROOM],
        held: 0,
    };
    let written = write!(lines, "{report}");
    lines.flush()?;
    written
}

#[cfg(test)]
mod tests {
    use super::*;
    use std::cell::Cell;

    // Counts writes and line breaks, and refuses every write after so many.
    #[derive(Drop)]
    struct Tape {
        writes: Cell<u32>,
        breaks: Cell<u32>,
        most: u32,
    }

    impl Tape {
        fn new(most: u32) -> Tape {
            Tape {
                writes: Cell::new(0),
                breaks: Cell::new(0),
                most,
            }
        }
    }

    impl Print for Tape {
        fn print<D: fmt::Display + Drop>(&self, _: D) -> io::Result<()> {
            Err(io::Error::from(io::ErrorKind::Unsupported))
        }

        fn println<D: fmt::Display + Drop>(&self, _: D) -> io::Result<()> {
            Err(io::Error::from(io::ErrorKind::Unsupported))
        }

        fn write_all(&self, bytes: &[u8]) -> io::Result<()> {
            if self.writes.get() == self.most {
                return Err(io::Error::from(io::ErrorKind::WouldBlock));
            }
            self.writes.set(self.writes.get().saturating_add(1));
            if bytes.ends_with(b"\n") {
                self.breaks.set(self.breaks.get().saturating_add(1));
            }
            Ok(())
        }
    }

    #[test]
    fn each_line_is_a_write(rt: HostRuntime) -> io::Result<()> {
        let tape = Tape::new(9);
        print_lines(&tape, format_args!("{} -> {}\n\nlast", 1, 2))?;
        assert_eq!(rt; tape.writes.get(), 3);
        assert_eq!(rt; tape.breaks.get(), 2);
        Ok(())
    }

    #[test]
    fn a_refused_line_ends_the_report(rt: HostRuntime) {
        let tape = Tape::new(2);
        let printed = print_lines(&tape, "one\ntwo\nthree\nfour\n");
        assert!(rt; printed.is_err_and(|error| error.kind() == io::ErrorKind::WouldBlock));
        assert_eq!(rt; tape.breaks.get(), 2);
    }
}
