// Lists the stacks of the files that its arguments name, one after the other, each under a line with the file's name. The
// gate runs it on the stacks in data/.
#![tactic(auto)]

use std::env;
use std::fs::File;

// Lists the stack of one file under its name, or says why the file can't be opened. The program goes on where that can't be
// printed.
fn list_file(rt: &HostRuntime, name: &str) {
    let _ = println!(rt; "{name}");
    match File::open(rt, name) {
        Ok(mut file) => {
            let mut buffer = [0u8; listing_program::MOST_READ];
            let mut text = [0u8; listing_program::LONGEST];
            // What went wrong has been told.
            let _ = listing_program::run(
                &mut file,
                &mut rt.stdout(),
                &mut rt.stderr(),
                &mut buffer,
                &mut text,
            );
        }
        Err(error) => {
            let _ = eprintln!(rt; "{name}: {error}");
        }
    }
}

fn main(rt: HostRuntime) {
    match env::args(&rt) {
        Ok(names) => {
            for name in names.skip(1) {
                list_file(&rt, &name);
            }
        }
        Err(error) => {
            let _ = eprintln!(rt; "a file's name: {error}");
        }
    }
}
