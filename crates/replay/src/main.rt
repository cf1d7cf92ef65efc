// Holds the port against a list of the Rust's answers on standard input, and prints how many cases differ.
#![tactic(auto)]

mod compare;
mod told;
mod walk;

use told::write_told;

// A list that fills the buffer may go on behind it, so it is not taken.
fn main() {
    let mut buffer = io::large_buffer();
    let length = io::read_full(0, &mut buffer);
    if length == buffer.len() {
        io::write_all(2, b"replay: the list has more than 65535 bytes\n");
        return;
    }
    let mut line = [0u8; 65];
    let end = write_told(&mut line, &buffer[..length]);
    if !io::write_all(1, &line[..end]) {
        io::write_all(2, b"replay: standard output failed\n");
    }
}
