// Reads a raw image of setting A on standard input and prints the read: its code, count, lag and place (document 01, "Measured
// on the bench"), and which bits were mended (document 02, P1).
#![tactic(auto)]

mod lines;

ghost use Rattle.std.specs.Prelude.{◌≤◌, length};
ghost use Rattle.counter.specs.Layout.{two};
ghost use Rattle.counter.specs.Places.{setting_a};
ghost use Rattle.counter.specs.Doors.{read_answer_of};
ghost use Rattle.text.specs.Text.{Wrote};
ghost use Rattle.look.specs.Look.{longest, look_text};

use counter::places::Places;
use std::io::{Print, Read};

// Reads an image with setting A, writes what it reads as at the start of a text, and answers how long
// that is.
fn look(image: &[u8], text: &mut [u8]) -> usize
    requires { longest ≤ length text.old }
    ensures { Wrote text.old 0 (look_text (read_answer_of two setting_a image.now)) result text.new }
{
    lines::fill(counter::doors::read(image, Places::SETTING_A), text)
}

// Reads until a buffer is full, the input ends or a read fails, and answers how many bytes stand at the buffer's start.
// Each program has its own: a public one would owe a theorem that it leaves one answer, and what an input gives is fixed by nothing.
fn read_full(input: &mut impl Read, buffer: &mut [u8]) -> usize
    ensures { result ≤ length buffer.new }
{
    let mut done = 0;
    while done < buffer.len() {
        let Ok(more) = input.read(&mut buffer[done..]) else {
            break;
        };
        if more == 0 {
            break;
        }
        done += more;
    }
    done
}

// An image of more than 4096 bytes is refused whatever it holds, so no more than 4097 are read. Lines that cannot be written are lost
// without a word.
fn main(rt: HostRuntime) {
    let mut image = [0u8; 4097];
    let size = read_full(&mut rt.stdin(), &mut image);
    let mut text = [0u8; lines::LONGEST];
    let end = look(&image[..size], &mut text);
    let _ = rt.stdout().write_all(&text[..end]);
}
