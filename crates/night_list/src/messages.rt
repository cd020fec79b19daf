// What the program says on standard error where a list is left without its last line. Where that is not to be said either, nothing is.
use std::io::Print;

pub(crate) fn read_failed<P: Print>(to: &P) {
    said(to.write_all(b"night_list: read failed\n"))
}

pub(crate) fn write_failed<P: Print>(to: &P) {
    said(to.write_all(b"night_list: write failed\n"))
}

fn said(answer: std::io::Result<()>) {
    match answer {
        Ok(()) => {}
        Err(_) => {}
    }
}
