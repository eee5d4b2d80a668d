// What the services do not show of the libraries below them: places and sets asked about, stretches at ticks that no timestamp has, the outline
// of documents, and the membership of places in the set that a record writes. What is printed is held to the file `stdout`, which is written by hand.
#![tactic(auto)]

mod lists;
mod membership;
mod outline;
mod sets;

fn put(text: &[u8]) {
    io::write_all(1, text);
}

// Prints an answer as one letter.
fn put_answer(yes: bool) {
    if yes {
        put(b"y");
    } else {
        put(b"n");
    }
}

fn main() {
    sets::show();
    lists::show();
    outline::show_all();
    membership::show();
}
