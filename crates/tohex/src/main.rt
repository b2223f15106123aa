// Reads a raw image on standard input and prints its Intel HEX text (document 02, P2). An image that has none is refused by a line on
// standard error, and nothing is printed.
#![tactic(auto)]

ghost use Rattle.std.specs.Prelude.{◌≤◌, ◌≡◌, false, true, length, IfErr, IfOk};
ghost use Rattle.intelhex.specs.Doors.{sized};
ghost use Rattle.text.specs.Text.{Wrote};
ghost use Rattle.tohex.specs.Told.{told_of, longest};

use std::io::{Print, Read};

// How long the text of an image is at most.
const LONGEST: usize = 11276;

// Writes the Intel HEX text of an image at the start of a text, or the line that refuses the image, which is an `Err`, and answers how
// long that is.
fn tell(image: &[u8], text: &mut [u8]) -> Result<usize, usize>
    requires { longest ≤ length text.old }
    ensures text { IfOk result (λ end. (sized (length image.now) ≡ true) × Wrote text.old 0 (told_of image.now) end text.new) }
    ensures refusal { IfErr result (λ end. (sized (length image.now) ≡ false) × Wrote text.old 0 (told_of image.now) end text.new) }
{
    match intelhex::write_image(image, text) {
        Ok(end) => Ok(end),
        Err(_) => {
            let end = text::write_bytes(b"the image is not 41 to 4096 bytes long\n", text, 0);
            Err(end)
        }
    }
}

// Reads until a buffer is full, the input ends or a read fails, and answers how many bytes stand at the buffer's start.
// Each program has its own: a public one would owe a theorem that it leaves one answer, and what an input gives is fixed by nothing.
fn read_full(input: &mut impl Read, buffer: &mut [u8]) -> usize
    ensures { result ≤ length buffer.new }
{
    let mut done = 0;
    while done < buffer.len() {
        let Ok(more) = input.read(&mut buffer[done..]) else {
            break;
        };
        if more == 0 {
            break;
        }
        done += more;
    }
    done
}

// An image of more than 4096 bytes is refused whatever it holds, so no more than 4097 are read. A text that is cut short must not pass for
// whole; where the line that says so cannot be written either, there is nobody left to tell.
fn main(rt: HostRuntime) {
    let mut image = [0u8; 4097];
    let size = read_full(&mut rt.stdin(), &mut image);
    let mut text = [0u8; LONGEST];
    match tell(&image[..size], &mut text) {
        Ok(end) => {
            if rt.stdout().write_all(&text[..end]).is_err() {
                let _ = rt.stderr().write_all(b"the text cannot be written\n");
            }
        }
        Err(end) => {
            let _ = rt.stderr().write_all(&text[..end]);
        }
    }
}
