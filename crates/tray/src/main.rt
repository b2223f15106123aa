// Reads images of setting A on standard input, one behind another, and prints a line for each: its number, and the code and the count
// of its read (document 02, P7). What is no tray is refused by a line on standard error, and nothing is printed.
#![tactic(auto)]

mod lines;

ghost use Rattle.std.specs.Prelude.{◌≤◌, ◌<◌, ◌≡◌, length, IfErr, IfOk};
ghost use Rattle.text.specs.Text.{Wrote};
ghost use Rattle.tray.specs.Prints.{images_of, told_of, longest};

use counter::places::Places;
use std::io::{Print, Read};

// The length of an image of setting A.
const LONG: usize = 129;

// Writes a line for each image of a tray at the start of a text, or the line that refuses the tray, which is an `Err`, and answers how
// long that is.
fn tell(tray: &[u8], text: &mut [u8]) -> Result<usize, usize>
    requires { longest ≤ length text.old }
    ensures lines { IfOk result (λ end. (0 < images_of tray.now) × Wrote text.old 0 (told_of tray.now) end text.new) }
    ensures refusal { IfErr result (λ end. (images_of tray.now ≡ 0) × Wrote text.old 0 (told_of tray.now) end text.new) }
{
    let mut counts = [0u32; 64];
    let mut codes = [0u32; 64];
    let read = dumps::tray::read_tray(tray, LONG, Places::SETTING_A, &mut counts, &mut codes);
    if read.is_err() {
        let end = text::write_bytes(b"not 1 to 64 images of 129 bytes each\n", text, 0);
        return Err(end);
    }
    Ok(lines::fill(&codes, &counts, tray.len() / LONG, text))
}

// Reads until a buffer is full, the input ends or a read fails, and answers how many bytes stand at the buffer's start.
// Each program has its own: a public one would owe a theorem that it leaves one answer, and what an input gives is fixed by nothing.
fn read_full(input: &mut impl Read, buffer: &mut [u8]) -> usize
    ensures { result ≤ length buffer.new }
{
    let mut done = 0;
    while done < buffer.len() {
        let Ok(more) = input.read(&mut buffer[done..]) else {
            break;
        };
        if more == 0 {
            break;
        }
        done += more;
    }
    done
}

// A tray has at most 8256 bytes, so no more than 8257 are read. Lines that are cut short must not pass for whole; where the line that says
// so cannot be written either, there is nobody left to tell.
fn main(rt: HostRuntime) {
    let mut tray = [0u8; 8257];
    let size = read_full(&mut rt.stdin(), &mut tray);
    let mut text = [0u8; lines::LONGEST];
    match tell(&tray[..size], &mut text) {
        Ok(end) => {
            if rt.stdout().write_all(&text[..end]).is_err() {
                let _ = rt.stderr().write_all(b"the lines cannot be written\n");
            }
        }
        Err(end) => {
            let _ = rt.stderr().write_all(&text[..end]);
        }
    }
}
