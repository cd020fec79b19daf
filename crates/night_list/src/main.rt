// The program of the run floor: a trace from standard input, its list to standard output. It only lends two buffers and says on standard
// error where a list is left without its last line; the night itself is the floor's.
#![tactic(auto)]

mod messages;

use floor::Unlisted;

fn main(rt: HostRuntime) {
    let mut buf = io::large_buffer();
    let mut out = io::large_buffer();
    let listed = floor::list(&mut rt.stdin(), &mut buf, &mut out, &rt.stdout());
    match listed.outcome {
        Ok(()) => {}
        Err(Unlisted::Unread) => {
            messages::read_failed(&rt.stderr());
        }
        Err(Unlisted::Stopped(_)) => {
            messages::write_failed(&rt.stderr());
        }
    }
}
