// Everything that the program prints: a line for each stroke of a page, and one more where the page is refused.
ghost use Rattle.std.specs.Prelude.{◌≡◌, ℕ, ◌≤◌, List, length, Some, Option, IfOk, string_bytes, OnOk};
ghost use Rattle.std.specs.Io.KnownBytes.{Appends};
ghost use Rattle.refusal.specs.Texts.{refusal_text};
ghost use Rattle.lines.specs.Output.{with_feed, page_text, refused_input, program_text, LinesInTurn};

use crate::line::StrokeLine;
use job::job::Job;
use refusal::{Layer, Told};
use std::alloc::{AllocError, Global};
use std::{fmt, io};

// How many bytes a page may have. The answers of such a page need no more.
pub const LONGEST: usize = 65536;

// Why the program refuses an input.
#[derive(Clone, Copy, Debug, PartialEq, Eq)]
pub enum InputCause {
    TooLong = 17,
}

impl From<InputCause> for Told {
    ghost from_gives = { λ cause told. told ≡ refused_input cause };

    fn from(cause: InputCause) -> Told {
        Told {
            number: cause as u16,
            place: LONGEST,
            layer: Layer::Program,
        }
    }
}

// Where lines are put, one after another: a text, or what is written to.
trait Lines {
    // The bytes of the lines so far, where they are known.
    ghost held: { Self → Option (List ℕ) };

    type Error: From<AllocError>;

    // Appends a line and ends it.
    fn put<L: fmt::Display>(&mut self, line: &L) -> Result<(), Self::Error>
        ensures { (bs : List ℕ) → L.output line.now ≡ Some bs → OnOk result (Appends (held self.old) (held self.new) (with_feed bs)) };
}

impl Lines for String {
    ghost held = { λ text. Some (string_bytes text) };

    type Error = AllocError;

    fn put<L: fmt::Display>(&mut self, line: &L) -> Result<(), AllocError> {
        writeln!(self, "{line}")
    }
}

// A writer, and the text of one line, which is written at once when it is made.
#[derive(Drop)]
struct Written<W> {
    line: String,
    out: W,
}

impl<W: io::Write> Lines for Written<W> {
    ghost held = { λ lines. W.contents lines.out };

    type Error = anyhow::Error;

    fn put<L: fmt::Display>(&mut self, line: &L) -> anyhow::Result<()> {
        self.line.clear();
        writeln!(self.line, "{line}")?;
        self.out.write_all(self.line.as_bytes())?;
        Ok(())
    }
}

// Puts the lines of a page, whose records of answers go to an answer page.
fn put_page<L: Lines>(lines: &mut L, page: &[u8], answers: &mut [u8]) -> Result<(), L::Error>
    requires { length page.now ≤ length answers.old }
    ensures { OnOk result (Appends (L.held lines.old) (L.held lines.new) (page_text page.now)) }
{
    let mut job = Job::new(page);
    while let Some(next) = job.next(answers).transpose() {
        match next {
            Ok(answered) => lines.put(&StrokeLine(&answered))?,
            Err(stop) => return lines.put(&Told::from(stop.fault)),
        }
    }
    Ok(())
}

// What is printed of an input: the lines of its page, or that it is too long for one.
#[tactic(auto, using(crate::proofs::Outputs::lines_in_turn))]
pub fn program_text(heap: Global, input: &[u8]) -> Result<String, AllocError>
    ensures text { IfOk result (λ t. string_bytes t ≡ program_text input.now) }
    ensures in_turn { LinesInTurn }
{
    let mut text = String::new(heap);
    if input.len() > LONGEST {
        text.put(&Told::from(InputCause::TooLong))?;
        return Ok(text);
    }
    let mut answers = vec![in heap; 0u8; LONGEST]?;
    put_page(&mut text, input, &mut answers)?;
    Ok(text)
}

// Writes the lines of a page, each before the next stroke is answered, and gives the writer back.
pub fn write_page<W: io::Write + Drop>(heap: Global, out: W, page: &[u8]) -> anyhow::Result<W>
    ensures { IfOk result (λ w. Appends (W.contents out) (W.contents w) (page_text page.now)) }
{
    let mut answers = vec![in heap; 0u8; page.len()]?;
    let line = String::new(heap);
    let mut lines = Written { line, out };
    put_page(&mut lines, page, &mut answers)?;
    Ok(lines.out)
}

// Writes the line of a refusal, and gives the writer back.
pub fn write_refusal<W: io::Write + Drop>(heap: Global, out: W, told: Told) -> anyhow::Result<W>
    ensures { IfOk result (λ w. Appends (W.contents out) (W.contents w) (with_feed (refusal_text told))) }
{
    let line = String::new(heap);
    let mut lines = Written { line, out };
    lines.put(&told)?;
    Ok(lines.out)
}
