// Lists the stack on standard input: the program itself. The gate runs it on the paper's example.
#![tactic(auto)]

fn main(rt: HostRuntime) {
    let mut buffer = [0u8; listing_program::MOST_READ];
    let mut text = [0u8; listing_program::LONGEST];
    // What went wrong has been told.
    let _ = listing_program::run(
        &mut rt.stdin(),
        &mut rt.stdout(),
        &mut rt.stderr(),
        &mut buffer,
        &mut text,
    );
}
