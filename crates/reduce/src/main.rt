// The program: reads a page from standard input and prints a line for each of its strokes.
#![tactic(auto)]

ghost use Rattle.std.specs.Prelude.{◌≡◌, ◌<◌, ◌≤◌, length, take, IfOk, IfSome};
ghost use Rattle.std.specs.Io.KnownBytes.{Appends, Consumes, IsAtEnd};
ghost use Rattle.lines.specs.Output.{long_page, program_text};

use lines::output;
use lines::output::{InputCause, LONGEST};
use refusal::Told;
use std::alloc::Global;
use std::io;
use std::io::{Read, Write};

// Fills the buffer as far as the input goes, and says how far that is.
// Each read asks for all the room that is left: of a message that is longer than what was asked for, the rest would be lost.
fn fill<R: Read>(input: &mut R, buf: &mut [u8]) -> io::Result<usize>
    ensures fits { IfOk result (λ n. n ≤ length buf.new) }
    ensures size { length buf.new ≡ length buf.old }
    ensures bytes { IfOk result (λ n. Consumes (R.remaining input.old) (R.remaining input.new) (take n buf.new)) }
    ensures end { IfOk result (λ n. n < length buf.new → IsAtEnd (R.remaining input.new)) }
{
    let mut len = 0;
    while len < buf.len() {
        let n = input.read(&mut buf[len..])?;
        if n == 0 {
            return Ok(len);
        }
        len += n;
    }
    Ok(len)
}

// What is told of an input that is longer than any page.
fn too_long() -> Told
    ensures { result ≡ long_page }
{
    Told::from(InputCause::TooLong)
}

// Prints the lines of an input. It is read up to one byte past the longest page, which is enough to refuse a longer one.
fn print_input<R: Read + Drop, W: Write + Drop>(
    heap: Global,
    mut input: R,
    out: W,
) -> anyhow::Result<W>
    ensures { IfOk result (λ w. IfSome (R.remaining input) (λ bs. Appends (W.contents out) (W.contents w) (program_text bs))) }
{
    let mut page = vec![in heap; 0u8; LONGEST + 1]?;
    let len = fill(&mut input, &mut page)?;
    if len > LONGEST {
        return Ok(output::write_refusal(heap, out, too_long())?);
    }
    Ok(output::write_page(heap, out, &page[..len])?)
}

fn main(rt: HostRuntime) -> anyhow::Result<()> {
    print_input(rt.alloc(), rt.stdin(), rt.stdout())?;
    Ok(())
}
