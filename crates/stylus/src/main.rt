// Reads a card's text on standard input and a raw image of setting A from the file that the argument names, and prints what the card
// answers at the chip's count (document 02, P4). What a refusal means is said on standard error.
#![tactic(auto)]

mod lines;
mod words;

ghost use Rattle.std.specs.Prelude.{◌≤◌, length};
ghost use Rattle.counter.specs.Layout.{two};
ghost use Rattle.counter.specs.Places.{setting_a};
ghost use Rattle.counter.specs.Doors.{read_of};
ghost use Rattle.card.specs.Answers.{chip_refused, chip_answer_of, answered_chip};
ghost use Rattle.card.specs.Doors.{Told};

use card::ChipAnswer;
use counter::places::Places;
use std::env::Env;
use std::fs::{File, Files};
use std::io::{Print, Read};

// What the card that a text shows answers at the count of an image of setting A.
fn answer(text: &[u8], image: &[u8]) -> ChipAnswer
    ensures { Told text.now (λ c. chip_answer_of (length c.speeds) c (read_of two setting_a image.now)) (chip_refused (read_of two setting_a image.now) 5) (answered_chip result) }
{
    match card::read_card(text) {
        Ok(card) => card::answer_of_chip(card, image, Places::SETTING_A),
        Err(refusal) => ChipAnswer {
            read: counter::doors::read_count(image, Places::SETTING_A).code,
            answer: Err(refusal),
        },
    }
}

// Reads until a buffer is full, the input ends or a read fails, and answers how many bytes stand at the buffer's start.
// Each program has its own: a public one would owe a theorem that it leaves one answer, and what an input gives is fixed by nothing.
fn read_full(input: &mut impl Read, buffer: &mut [u8]) -> usize
    ensures { result ≤ length buffer.new }
{
    let mut done = 0;
    while done < buffer.len() {
        let Ok(more) = input.read(&mut buffer[done..]) else {
            break;
        };
        if more == 0 {
            break;
        }
        done += more;
    }
    done
}

// Prints what a card answers, and says what a refusal means. Lines that are cut short must not pass for whole; where what is said cannot be
// written either, there is nobody left to tell.
fn tell(output: &impl Print, errors: &impl Print, answer: ChipAnswer) {
    let mut text = [0u8; lines::LONGEST];
    let end = lines::fill(answer, &mut text);
    if output.write_all(&text[..end]).is_err() {
        let _ = errors.write_all(b"the lines cannot be written\n");
    }
    let mut said = [0u8; words::LONGEST];
    let last = words::fill(answer, &mut said);
    let _ = errors.write_all(&said[..last]);
}

// The file that the argument names, where it can be opened. A name that is no UTF-8 opens nothing: ./lyre hands on that of a descriptor.
fn chip<R: Env + Files>(rt: &R) -> Option<R::File> {
    let mut path = [0u8; 4096];
    let size = rt.arg(1, &mut path).ok()?;
    let name = str::from_utf8(&path[..size]).ok()?;
    File::open(rt, name).ok()
}

// An image of more than 4096 bytes is refused whatever it holds, so no more than 4097 are read. The text of a card that is not refused
// has at most 1706 bytes; of one that fills the buffer it is not known whether it is in form.
fn main(rt: HostRuntime) {
    let mut text = [0u8; 65536];
    let size = read_full(&mut rt.stdin(), &mut text);
    if size == 65536 {
        let _ = rt.stderr().write_all(
            b"card: 65536 bytes or more: the text is not in form, or has more than 64 runs\n",
        );
        return;
    }
    let Some(mut file) = chip(&rt) else {
        let _ = rt.stderr().write_all(b"chip: cannot be opened\n");
        return;
    };
    let mut image = [0u8; 4097];
    let n = read_full(&mut file, &mut image);
    tell(
        &rt.stdout(),
        &rt.stderr(),
        answer(&text[..size], &image[..n]),
    );
}
