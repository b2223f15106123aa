// A tray of dumps (document 02, P7): each image is handed to the counter where it stands, and its count and code go to its place in two
// lent rows.
ghost use Rattle.std.specs.Prelude.{◌*◌, ◌≤◌, ◌≡◌, length};
ghost use Rattle.counter.specs.Layout.{two};
ghost use Rattle.counter.specs.Doors.{read_of};
ghost use Rattle.dumps.specs.Tray.{images_in, each_read, outcome, tray_of, tray_code};

use counter::places::Places;

// What a call is refused with: the bytes are no tray, or a row is too short for its images.
#[derive(Clone, Copy, Debug, PartialEq, Eq)]
pub struct NotATray;

// How many images a tray holds, or 0 where it is none. No Option: with it a tray of one image misses its bar of speed.
fn images_in(each: usize, long: usize) -> usize
    ensures { result ≡ images_in each long }
{
    if each < 1 {
        return 0;
    }
    if long % each != 0 {
        return 0;
    }
    let images = long / each;
    if 64 < images {
        return 0;
    }
    images
}

// Reads so many images into the first entries of the rows, which are two, and of numbers, as C lends them. By an index: with `chunks_exact`
// a tray of one image misses its bar of speed.
fn fill(tray: &[u8], each: usize, images: usize, p: Places, counts: &mut [u32], codes: &mut [u32])
    requires { (images * each ≡ length tray.now) × (images ≤ length counts.old) × (images ≤ length codes.old) }
    ensures { outcome 0 counts.new codes.new ≡ each_read (read_of two p) each images tray.now counts.old codes.old }
{
    for done in 0..images {
        let at = done * each;
        let answer = counter::doors::read_count(&tray[at..at + each], p);
        counts[done] = answer.count;
        codes[done] = answer.code;
    }
}

// Reads every image of a tray into two rows, which stay as they were where it is refused.
pub fn read_tray(
    tray: &[u8],
    each: usize,
    p: Places,
    counts: &mut [u32],
    codes: &mut [u32],
) -> Result<(), NotATray>
    ensures { outcome (tray_code result) counts.new codes.new ≡ tray_of (read_of two p) each tray.now counts.old codes.old }
{
    let images = images_in(each, tray.len());
    if images < 1 || counts.len() < images {
        return Err(NotATray);
    }
    if codes.len() < images {
        return Err(NotATray);
    }
    fill(tray, each, images, p, counts, codes);
    Ok(())
}
