// What no trace reaches, run on the public functions: each check is a proof obligation, and is run too.
#![tactic(auto)]

mod answers;
mod broken;
mod building;
mod configurations;
mod cycles;
mod reading;
mod refusing;
mod writer;

fn main() {
    configurations::depths();
    configurations::constructions();
    cycles::last_cycle();
    cycles::run_full();
    cycles::part_lengths();
    cycles::unused_bytes();
    cycles::refused_offers();
    broken::refused();
    reading::walks();
    writer::ends();
    writer::refusals();
    writer::credits();
    writer::longest();
    writer::rooms();
}
