// The published figures of document 000, its tables of narrow and full range at 8, 10 and 12 bits, and what its notes say of the
// legacy full range (white and the highest difference are clamped, at 12 bits to 4092), run through the library.
// A line has a row of a table: the code of each channel that it speaks of, R' G' B' Y', or Cb Cr.
#![tactic(auto)]

use std::io;
use std::io::Print;

// What was printed, or not: the program goes on where standard output can't be written.
fn printed(outcome: io::Result<()>) {
    match outcome {
        Ok(()) => (),
        Err(_) => (),
    }
}

fn print_code(rt: &impl Print, model: u8, range: u8, depth: u8, channel: u8, value: f32) {
    match quantization::quantize(model, range, depth, channel, value) {
        Ok(clamped) => printed(print!(rt; " {}", clamped.code)),
        Err(refusal) => printed(print!(rt; " refused {}", refusal.number())),
    }
}

fn print_brightness(rt: &impl Print, range: u8, depth: u8, value: f32) {
    print_code(rt, 1, range, depth, 0, value);
    print_code(rt, 1, range, depth, 1, value);
    print_code(rt, 1, range, depth, 2, value);
    print_code(rt, 2, range, depth, 0, value);
    printed(println!(rt; ""));
}

fn print_difference(rt: &impl Print, range: u8, depth: u8, value: f32) {
    print_code(rt, 2, range, depth, 1, value);
    print_code(rt, 2, range, depth, 2, value);
    printed(println!(rt; ""));
}

fn print_table(rt: &impl Print, range: u8, depth: u8) {
    printed(print!(rt; "black:"));
    print_brightness(rt, range, depth, 0.0);
    printed(print!(rt; "peak brightness:"));
    print_brightness(rt, range, depth, 1.0);
    printed(print!(rt; "minimum difference:"));
    print_difference(rt, range, depth, -0.5);
    printed(print!(rt; "maximum difference:"));
    print_difference(rt, range, depth, 0.5);
    printed(print!(rt; "achromatic:"));
    print_difference(rt, range, depth, 0.0);
}

fn main(rt: HostRuntime) {
    printed(println!(rt; "narrow range, 8 bits"));
    print_table(&rt, 1, 8);
    printed(println!(rt; "narrow range, 10 bits"));
    print_table(&rt, 1, 10);
    printed(println!(rt; "narrow range, 12 bits"));
    print_table(&rt, 1, 12);
    printed(println!(rt; "full range, 8 bits"));
    print_table(&rt, 2, 8);
    printed(println!(rt; "full range, 10 bits"));
    print_table(&rt, 2, 10);
    printed(println!(rt; "full range, 12 bits"));
    print_table(&rt, 2, 12);
    printed(println!(rt; "legacy full range, 8 bits"));
    print_table(&rt, 3, 8);
    printed(println!(rt; "legacy full range, 10 bits"));
    print_table(&rt, 3, 10);
    printed(println!(rt; "legacy full range, 12 bits"));
    print_table(&rt, 3, 12);
}
