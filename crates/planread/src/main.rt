// planread: reads sheet.txt, literals.txt and plan.txt of the folder that it is run in, and writes the listing.
#![tactic(auto)]

mod print;

use crate::print::print_folder;
use std::io;

fn main(rt: HostRuntime) -> io::Result<()> {
    print_folder(&rt)
}
