// Runs bench cases 14 to 17, cases that are easy to get wrong, and those of later requests, and prints a line for each answer,
// which is held to `stdout`.
#![tactic(auto)]

mod bench;
mod cards;
mod chips;
mod edges;
mod erased;
mod hexes;
mod lines;
mod mended;
mod texts;
mod trays;
mod trials;

fn main(rt: HostRuntime) {
    let output = &rt.stdout();
    bench::cases(output);
    edges::cases(output);
    mended::cases(output);
    hexes::cases(output);
    erased::cases(output);
    cards::cases(output);
    trials::cases(output);
    trays::cases(output);
}
