//! A task over a stream of messages, which are read, done and written one by one.
use crate::batches::tell_end;
use crate::counting_writer::CountingWriter;
use crate::explained::{Refusal, refuse};
use crate::faults::{read_fault, write_fault};
use crate::{layout_of, out_path};
use fb_explain_records::StreamMessage;
use flatc_cli::{ErrorFormat, Task, Verb};
use flatc_files::{Content, RunStatus, Texts, Window, write_out};
use flatc_jobs::{Flags, Outcome, end_of, next_output};
use flatc_tool::{Layout, ToolFault, WriteFault};
use std::io::{self, BufWriter, Write};

// As many reads as the longest message may take, each of which gets a byte at least.
const READS: u32 = u32::MAX;

/// A task, and the stream that it is done over.
#[derive(Clone, Copy)]
struct Stream<'s> {
    task: &'s Task,
    /// The path of the stream.
    input: &'s str,
    /// Whether messages that are refused are skipped.
    keep_going: bool,
}

impl Stream<'_> {
    fn flags(&self) -> Flags {
        Flags::of(self.task.verb, self.task.form)
    }
}

/// A stream, and how far its messages are done.
#[derive(Drop)]
struct StreamRun<'s> {
    rt: &'s HostRuntime,
    stream: Stream<'s>,
    layout: Layout,
    texts: Texts<'s>,
    window: Window,
    /// How many bytes of the stream its messages took so far.
    taken: u64,
    format: ErrorFormat,
    status: RunStatus,
    /// Whether it ended at a message, which is reported already.
    is_stopped: bool,
}

impl StreamRun<'_> {
    /// Prints the number of a message before the line of its refusal.
    fn print_number(&self, number: u64) {
        let noun = match self.stream.task.verb {
            Verb::Binary { .. } => "line",
            Verb::Json { .. } | Verb::Check { .. } => "message",
        };
        let _number = eprint!(self.rt; "{noun} {number}: ");
    }

    /// Reports why a message is refused, after its number.
    fn refuse(&mut self, number: u64, len: usize, fault: ToolFault) {
        self.status.note(false);
        let format = self.format_of_message(len);
        if matches!(format, ErrorFormat::Line | ErrorFormat::Human) {
            self.print_number(number);
        }
        let flags = self.stream.flags();
        let message = self.message(number);
        let refusal = Refusal {
            fault,
            flags,
            texts: &self.texts,
            message: Some(message),
        };
        let _status = refuse(self.rt, format, refusal);
    }

    /// Takes a message for the input, which its findings quote. Without memory for that its line is printed alone.
    fn format_of_message(&mut self, len: usize) -> ErrorFormat {
        if self.format == ErrorFormat::Line {
            return ErrorFormat::Line;
        }
        let message = self.window.first(len);
        match self.texts.quote(self.rt, self.stream.input, message) {
            Ok(()) => self.format,
            Err(_) => ErrorFormat::Line,
        }
    }

    /// The message that comes next, by its number.
    fn message(&self, number: u64) -> StreamMessage {
        let lines = match self.stream.task.verb {
            Verb::Binary { .. } => number.saturating_sub(1) as usize,
            Verb::Json { .. } | Verb::Check { .. } => 0,
        };
        StreamMessage {
            index: number,
            lines,
            offset: self.taken,
        }
    }

    /// Ends the run at a message.
    fn stop(&mut self, number: u64, len: usize, fault: ToolFault) -> io::Error {
        self.is_stopped = true;
        self.refuse(number, len, fault);
        io::Error::other("the stream ends at a message")
    }

    fn read_more(&mut self) -> Result<(), ToolFault> {
        let read = self.window.read_more();
        self.texts.note(
            self.rt,
            self.stream.input,
            &read,
            "it has a message longer than 2147483647 bytes",
        );
        read.map_err(read_fault)
    }

    /// Passes over a message that is refused, or ends the run at it.
    fn pass_over<W: Write + Drop>(
        &mut self,
        number: u64,
        len: usize,
        fault: ToolFault,
        out: &mut BufWriter<W>,
    ) -> io::Result<()> {
        out.flush()?;
        if !self.stream.keep_going {
            return Err(self.stop(number, len, fault));
        }
        self.refuse(number, len, fault);
        self.window.take(len);
        self.taken = self.taken.saturating_add(len as u64);
        Ok(())
    }

    /// Does the next message, and writes what comes of it; false at the end of the stream.
    ///
    /// What is done is written before a read, which may wait for another program.
    fn do_message<W: Write + Drop>(
        &mut self,
        number: u64,
        out: &mut BufWriter<W>,
    ) -> io::Result<bool> {
        let task = self.stream.task;
        for _ in 0..READS {
            let unread = self.window.bytes().len();
            match next_output(
                self.rt.alloc(),
                &self.layout,
                task.verb,
                task.form,
                &mut self.window,
            ) {
                Outcome::Output(output) => {
                    let len = unread.saturating_sub(self.window.bytes().len());
                    self.taken = self.taken.saturating_add(len as u64);
                    out.write_all(output.as_slice())?;
                    return Ok(true);
                }
                Outcome::Refused(len, fault) => {
                    self.pass_over(number, len, fault, out)?;
                    return Ok(true);
                }
                Outcome::Cut(fault) => {
                    let rest = self.window.bytes().len();
                    return Err(self.stop(number, rest, ToolFault::Read(fault)));
                }
                Outcome::End => return Ok(false),
                Outcome::Unread => {}
            }
            out.flush()?;
            if let Err(fault) = self.read_more() {
                return Err(self.stop(number, 0, fault));
            }
        }
        Ok(false)
    }

    fn do_messages<W: Write + Drop>(&mut self, out: &mut BufWriter<W>) -> io::Result<()> {
        for number in 1..=u64::MAX {
            if !self.do_message(number, out)? {
                return Ok(());
            }
        }
        Ok(())
    }
}

impl Content for StreamRun<'_> {
    fn write_to<W: Write>(&mut self, out: &mut W) -> io::Result<()> {
        let mut out = BufWriter::new(self.rt.alloc(), out)?;
        self.do_messages(&mut out)?;
        out.flush()
    }

    fn len(&self) -> Option<u64> {
        None
    }
}

/// The layout of a stream's messages, and the stream itself, of which nothing is read yet.
fn open_stream<'s>(
    rt: &HostRuntime,
    stream: Stream<'s>,
    texts: &mut Texts<'s>,
) -> Result<(Layout, Window), ToolFault> {
    texts
        .read_schema(rt, stream.task.schema.as_str())
        .map_err(read_fault)?;
    let layout = layout_of(rt, texts)?;
    match Window::open(rt, stream.input) {
        Ok(window) => Ok((layout, window)),
        Err(error) => {
            texts.fail(rt, stream.input, &error);
            Err(ToolFault::FileRead)
        }
    }
}

/// Why a run couldn't write what comes of its messages.
#[derive(Drop)]
enum Unwritten {
    /// To OUT.
    File(io::Error),
    /// To standard output, which took this many bytes of the run.
    Standard(io::Error, u64),
}

/// Does all messages of a stream.
fn write_messages(rt: &HostRuntime, run: &mut StreamRun<'_>) -> Result<(), Unwritten> {
    let stream = run.stream;
    match stream.task.verb {
        Verb::Binary { .. } => {
            let inputs = [stream.task.schema.as_str(), stream.input];
            write_out(rt, out_path(&stream.task.output), run, inputs).map_err(Unwritten::File)
        }
        Verb::Json { .. } | Verb::Check { .. } => {
            let mut out = CountingWriter::new(rt.stdout());
            let done = run.write_to(&mut out);
            done.map_err(|error| Unwritten::Standard(error, out.written()))
        }
    }
}

impl StreamRun<'_> {
    /// The fault of what couldn't be written.
    fn unwritten_fault(&mut self, unwritten: &Unwritten) -> ToolFault {
        match unwritten {
            Unwritten::File(error) => {
                let out = out_path(&self.stream.task.output);
                write_fault(self.rt, &mut self.texts, out, error)
            }
            Unwritten::Standard(error, written) => {
                match write_fault(self.rt, &mut self.texts, "standard output", error) {
                    ToolFault::FileWrite => ToolFault::Write(WriteFault::WriteFailed(*written)),
                    fault => fault,
                }
            }
        }
    }
}

/// Does a task over a stream, and returns the status: 1 where a message was refused.
pub(crate) fn do_stream(
    rt: &HostRuntime,
    task: &Task,
    input: &str,
    keep_going: bool,
    format: ErrorFormat,
) -> u8 {
    let stream = Stream {
        task,
        input,
        keep_going,
    };
    let mut texts = Texts::new(rt);
    let (layout, window) = match open_stream(rt, stream, &mut texts) {
        Ok(opened) => opened,
        Err(fault) => {
            let refusal = Refusal::of_files(fault, stream.flags(), &texts);
            return refuse(rt, format, refusal);
        }
    };
    let mut run = StreamRun {
        rt,
        stream,
        layout,
        texts,
        window,
        taken: 0,
        format,
        status: RunStatus::new(),
        is_stopped: false,
    };
    match write_messages(rt, &mut run) {
        Err(unwritten) if !run.is_stopped => {
            let fault = run.unwritten_fault(&unwritten);
            let refusal = Refusal::of_files(fault, stream.flags(), &run.texts);
            refuse(rt, format, refusal)
        }
        _ => tell_end(rt, end_of(task.verb, run.status)),
    }
}
