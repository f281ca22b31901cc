//! The console of the host: commands that are given, and then standard input and standard output.

use crate::files::commands_of;
use l6_device::{Host, Patience, Sink, write_text};
use l6_session::{Console, ConsoleFault, Verb, file_of};
use l6_word::first_line;
use std::fs::File;
use std::io::{BufRead, ErrorKind};

/// How many files of commands a session obeys at most, so that one which names itself comes to an end.
const MAX_SOURCES: u32 = 1000;

/// What is shown of a session that is saved.
const SAVED: &[u8] = b"Saved: source obeys the file\n";

/// What is shown where it could not be written.
const UNSAVED: &[u8] = b"The file can't be written\n";

/// How a console behaves.
#[derive(Clone, Copy, Debug, PartialEq, Eq)]
pub(crate) struct Mode {
    /// Whether it ends after the commands that are given, and asks the reader for none.
    pub(crate) is_batch: bool,
    /// Whether lines are typed at a terminal, which shows them itself.
    pub(crate) is_typed: bool,
    /// Whether it repeats each command before its answer.
    pub(crate) has_echo: bool,
    /// Whether the commands that are given may name files. Those of a job may not: somebody else may have
    /// written them, and a session that is saved takes the place of a file.
    pub(crate) may_name_files: bool,
}

/// A console that reads the lines of a text, and then those of a reader, and shows texts by a writer.
#[derive(Drop)]
pub(crate) struct Terminal<'a, R, W> {
    rt: &'a HostRuntime,
    reader: R,
    writer: W,
    commands: Vec<u8>,
    /// How many bytes of the commands are read.
    taken: usize,
    /// Whether they may name files.
    may_name_files: bool,
    /// Whether the line that was read last may.
    may_open: bool,
    /// How many files of commands are obeyed.
    sources: u32,
    /// The file into which the next text goes.
    file: Option<File>,
    mode: Mode,
}

impl<'a, R: BufRead, W: Sink> Terminal<'a, R, W> {
    /// A console of this reader and this writer.
    pub(crate) fn new(
        rt: &'a HostRuntime,
        reader: R,
        writer: W,
        commands: Vec<u8>,
        mode: Mode,
    ) -> Self {
        Terminal {
            rt,
            reader,
            writer,
            commands,
            taken: 0,
            may_name_files: mode.may_name_files,
            may_open: false,
            sources: 0,
            file: None,
            mode,
        }
    }

    /// Reads a line in place of `line`. Answers whether there was one.
    fn read_line(&mut self, line: &mut Vec<u8>) -> Result<bool, ConsoleFault> {
        line.clear();
        self.may_open = true;
        if self.read_command(line)? {
            self.may_open = self.may_name_files;
            self.echo(line.as_slice(), self.mode.has_echo || self.mode.is_typed)?;
            return Ok(true);
        }
        if self.mode.is_batch {
            return Ok(false);
        }
        self.read_typed(line)
    }

    /// Reads a line of the commands in place of `line`. Answers whether there was one.
    fn read_command(&mut self, line: &mut Vec<u8>) -> Result<bool, ConsoleFault> {
        let Some(rest) = self.commands.as_slice().get(self.taken..) else {
            return Ok(false);
        };
        let Some((command, following)) = first_line(rest) else {
            return Ok(false);
        };
        line.extend_from_slice(command)?;
        self.taken = self.commands.len().saturating_sub(following.len());
        Ok(true)
    }

    /// Writes a text. It may be interrupted a thousand times.
    fn write(&mut self, text: &[u8]) -> Result<(), ConsoleFault> {
        match write_text(&mut self.writer, text, 0, &mut Patience::new()) {
            Ok(()) => Ok(()),
            Err(_) => Err(ConsoleFault::Write),
        }
    }

    /// Repeats a line, where that is wanted.
    fn echo(&mut self, line: &[u8], is_wanted: bool) -> Result<(), ConsoleFault> {
        if is_wanted {
            self.write(line)?;
            self.write(b"\n")?;
        }
        Ok(())
    }

    /// Reads a line of the reader in place of `line`, without its line feed. Answers whether there was
    /// one.
    fn read_typed(&mut self, line: &mut Vec<u8>) -> Result<bool, ConsoleFault> {
        match self.reader.read_until(b'\n', line) {
            Ok(0) => {
                // what a shell shows next begins on a line of its own
                self.echo(b"", self.mode.is_typed)?;
                Ok(false)
            }
            Ok(_) => {
                if line.as_slice().last() == Some(&b'\n') {
                    line.pop();
                }
                self.echo(line.as_slice(), self.mode.has_echo && !self.mode.is_typed)?;
                Ok(true)
            }
            Err(error) => match error.kind() {
                ErrorKind::OutOfMemory => Err(ConsoleFault::NoMemory),
                _ => Err(ConsoleFault::Read),
            },
        }
    }

    /// Opens the file that a line names. Answers whether the lines of that file come next; a session that
    /// is saved into it is asked to show how.
    fn open(&mut self, line: &mut Vec<u8>) -> Result<bool, ConsoleFault> {
        if !self.may_open {
            return Ok(false);
        }
        let Some((verb, name)) = file_of(line.as_slice()) else {
            return Ok(false);
        };
        let Ok(path) = str::from_utf8(name) else {
            return Ok(false);
        };
        if verb == Verb::Source {
            return self.source(path);
        }
        if let Ok(file) = File::create(self.rt, path) {
            self.file = Some(file);
            line.clear();
            line.extend_from_slice(b"save")?;
        }
        Ok(false)
    }

    /// Has the lines of a file come before the commands that are left, if it can be read. Answers whether
    /// it can.
    fn source(&mut self, path: &str) -> Result<bool, ConsoleFault> {
        if self.sources >= MAX_SOURCES {
            return Ok(false);
        }
        let Ok(mut commands) = commands_of(self.rt, path) else {
            return Ok(false);
        };
        self.sources += 1;
        if commands.as_slice().last() != Some(&b'\n') {
            commands.extend_from_slice(b"\n")?;
        }
        if let Some(rest) = self.commands.as_slice().get(self.taken..) {
            commands.extend_from_slice(rest)?;
        }
        self.commands = commands;
        self.may_name_files = true;
        self.taken = 0;
        Ok(true)
    }
}

impl<'a, R: BufRead, W: Sink> Console for Terminal<'a, R, W> {
    ghost use Rattle.std.specs.Prelude.{None};

    ghost passed = { λ _. None };

    fn read(&mut self, line: &mut Vec<u8>) -> Result<bool, ConsoleFault> {
        'files: for _ in 0..=MAX_SOURCES {
            if !self.read_line(line)? {
                return Ok(false);
            }
            if !self.open(line)? {
                return Ok(true);
            }
        }
        Ok(true)
    }

    fn show(&mut self, text: &[u8]) -> Result<(), ConsoleFault> {
        let Some(file) = self.file.take() else {
            return self.write(text);
        };
        let written = write_text(&mut Host::new(file), text, 0, &mut Patience::new());
        self.write(if written.is_ok() { SAVED } else { UNSAVED })
    }
}
