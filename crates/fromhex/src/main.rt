// Reads an Intel HEX text on standard input (document 02, P2) and prints the raw image, of as many bytes as the argument says. A text
// that is refused is refused by a line on standard error, and nothing is printed.
#![tactic(auto)]

mod lengths;
mod refusals;

ghost use Rattle.std.specs.Prelude.{◌≤◌, ◌≡◌, length};
ghost use Rattle.intelhex.specs.Doors.{read_of};
ghost use Rattle.fromhex.specs.Refusals.{Said, longest};

use std::env::Env;
use std::io::{Print, Read};

// Reads a text into an image, writes the line that refuses it, if one does, at the start of another text, and answers how long the line is.
fn convert(text: &[u8], image: &mut [u8], line: &mut [u8]) -> Option<usize>
    requires { longest ≤ length line.old }
    ensures { (image.new ≡ (read_of text.now image.old).left) × Said line.old (read_of text.now image.old).answer result line.new }
{
    refusals::fill(intelhex::read_image(text, image), line)
}

// Reads until a buffer is full, the input ends or a read fails, and answers how many bytes stand at the buffer's start.
// Each program has its own: a public one would owe a theorem that it leaves one answer, and what an input gives is fixed by nothing.
fn read_full(input: &mut impl Read, buffer: &mut [u8]) -> usize
    ensures { result ≤ length buffer.new }
{
    let mut done = 0;
    while done < buffer.len() {
        let Ok(more) = input.read(&mut buffer[done..]) else {
            break;
        };
        if more == 0 {
            break;
        }
        done += more;
    }
    done
}

// The argument, or none of it where it has more than 4096 digits, which is refused as 0 is.
fn argument(environment: &impl Env) -> usize
    ensures { result ≤ 4097 }
{
    let mut digits = [0u8; 4096];
    let size = environment.arg(1, &mut digits).unwrap_or(0);
    lengths::asked(&digits[..size])
}

// A text that is read into 4096 bytes or fewer has at most 61453 bytes: 15 for each byte, which has a record of its own that ends with
// CR LF, and 13 for the end record. So the rest of a text of more than 65536 changes no answer (a theorem of intelhex, `cut_reads`), and
// is not read. An image that is cut short must not pass for whole; where the line that says so cannot be written either, there is nobody
// left to tell.
fn main(rt: HostRuntime) {
    let n = argument(&rt);
    let mut text = [0u8; 65536];
    let size = read_full(&mut rt.stdin(), &mut text);
    let mut image = [0u8; lengths::TOO_LONG];
    let mut line = [0u8; refusals::LONGEST];
    let Some(end) = convert(&text[..size], &mut image[..n], &mut line) else {
        if rt.stdout().write_all(&image[..n]).is_err() {
            let _ = rt.stderr().write_all(b"the image cannot be written\n");
        }
        return;
    };
    let _ = rt.stderr().write_all(&line[..end]);
}
