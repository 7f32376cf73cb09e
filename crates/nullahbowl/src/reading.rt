// Reading a text: its lines are taken one after the other, and what they ask for is written.
ghost use Rattle.std.specs.Prelude.{◌≡◌, ◌+◌, ◌-◌, ◌^◌, ◌<◌, min, IfOk, OnOk};
ghost use Rattle.std.specs.Io.KnownBytes.{Appends};
ghost use Rattle.nullahbowl.specs.Answers.{EndTold, LineTaken, LinesTaken, answer_text, asks, is_question, lines_in, without_feed};

use crate::answer::{Answer, TakeError};
use crate::argument::Options;
use crate::session::Session;
use crate::writing::{write_found, write_table};
use anyhow::anyhow;
use std::alloc::Global;
use std::io;
use std::io::Write;
use texts::{Fault, Numbers, Parts, without_return};

// How much was turned away, and how many questions came.
#[derive(Clone, Copy, Default)]
pub struct Tally {
    pub faults: usize,
    pub asked: usize,
}

impl Tally {
    // This and more.
    pub fn and(self, more: Tally) -> Tally
        ensures { (result.faults ≡ min (self.faults + more.faults) (2 ^ 64 - 1)) × (result.asked ≡ min (self.asked + more.asked) (2 ^ 64 - 1)) }
    {
        Tally {
            faults: self.faults.saturating_add(more.faults),
            asked: self.asked.saturating_add(more.asked),
        }
    }
}

// Takes the lines of a text, writes what they ask for, and says which were turned away and why.
pub fn read_text<W: Write>(
    rt: &HostRuntime,
    session: &mut Session,
    name: &str,
    text: &[u8],
    options: Options,
    out: &mut W,
) -> anyhow::Result<Tally>
    ensures { IfOk result (λ y. (w : _) × LinesTaken options session.old (lines_in text.now) 0 y.faults y.asked w session.new × Appends (W.Write.contents out.old) (W.Write.contents out.new) w) }
{
    let mut tally = Tally::default();
    for (place, line) in Parts::new(without_feed(text), b'\n').enumerate() {
        // A line in which nothing stands asks for nothing and changes nothing, so that it is spared the call.
        if options.progress || !without_return(line).is_empty() {
            tally = tally.and(read_line(rt, session, name, line, place, options, out)?);
            tell_progress(rt, name, place + 1, options)?;
        }
    }
    Ok(tally)
}

// Says how far reading has come, where that is wanted: after every 100,000 lines.
fn tell_progress(rt: &HostRuntime, name: &str, count: usize, options: Options) -> io::Result<()> {
    if options.progress && count % 100_000 == 0 {
        eprintln!(rt; "{name}: {count} lines")?;
    }
    Ok(())
}

// A text without the line feed at its end: behind it no line begins.
fn without_feed<'t>(text: &'t [u8]) -> &'t [u8]
    ensures { result.now ≡ without_feed text.now }
{
    text.strip_suffix(b"\n").unwrap_or(text)
}

// Takes the line at `place`, writes what it asks for, or says why it is turned away. It stands apart: written out in the loop
// over lines, it would have the room of its answers and refusals cleared for each of them, also where nothing stands.
#[inline(never)]
fn read_line<W: Write>(
    rt: &HostRuntime,
    session: &mut Session,
    name: &str,
    line: &[u8],
    place: usize,
    options: Options,
    out: &mut W,
) -> anyhow::Result<Tally>
    requires { place < 2 ^ 64 - 1 }
    ensures { IfOk result (λ y. (w : _) × LineTaken options session.old line.now place y.faults y.asked w session.new × Appends (W.Write.contents out.old) (W.Write.contents out.new) w) }
{
    let count = place + 1;
    match session.take(rt.alloc(), line, place) {
        Ok(answer) => {
            let asked = write_answer(out, session, answer, options)?;
            Ok(Tally {
                faults: 0,
                asked: usize::from(asked),
            })
        }
        Err(TakeError::Refused(fault)) => {
            eprintln!(rt; "{name}:{count}: {fault}")?;
            let asked = is_question(fault);
            Ok(Tally {
                faults: 1,
                asked: usize::from(asked),
            })
        }
        Err(TakeError::Full) => {
            eprintln!(rt;
                "{name}:{count}: there can't be more than 4294967295 names, nor more bytes of all names together"
            )?;
            Ok(Tally {
                faults: 1,
                asked: 0,
            })
        }
        Err(TakeError::NoMemory) => {
            out.flush()?;
            Err(anyhow!("there is not enough memory"))
        }
    }
}

// Whether what is turned away is a question.
fn is_question(fault: Fault) -> bool
    ensures { result ≡ is_question fault }
{
    matches!(fault, Fault::Question(_))
}

// Writes what a line asks for, and answers whether it asks for anything.
fn write_answer<W: Write>(
    out: &mut W,
    session: &Session,
    answer: Answer,
    options: Options,
) -> io::Result<bool>
    ensures { IfOk result (λ b. (b ≡ asks answer.entry) × Appends (W.Write.contents out.old) (W.Write.contents out.new) (answer_text options session.now answer.entry)) }
{
    match answer {
        Answer::Nothing => return Ok(false),
        Answer::Key(key) => {
            let numbers = Numbers(key.as_slice());
            writeln!(out, "{numbers}")?;
        }
        Answer::Find(ask) => write_found(out, session.find(ask), options)?,
    }
    Ok(true)
}

// Writes what stands behind all answers: the table, where it is wanted; else, where nothing was asked for, all names in
// order.
pub fn write_end<W: Write>(
    out: &mut W,
    session: &mut Session,
    heap: Global,
    asked: usize,
    options: Options,
) -> anyhow::Result<()>
    ensures { OnOk result ((w : _) × EndTold options asked session.old w session.new × Appends (W.Write.contents out.old) (W.Write.contents out.new) w) }
{
    if options.table {
        write_table(out, &session.table())?;
    } else if asked == 0 {
        session.put_in_order(heap)?;
        write_found(out, session.find(b""), options)?;
    }
    Ok(())
}
