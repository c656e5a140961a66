//! What is printed of a call. What prints sees plain values alone.

/// The word for a call that was refused memory.
pub const NO_MEMORY: &str = "no memory";

pub fn tell<R: Print>(rt: &R, name: &str, what: &str) {
    let _ = println!(rt; "{name}: {what}");
}

pub fn tell_offsets<R: Print>(rt: &R, name: &str, offsets: &[u64]) {
    let _ = print!(rt; "{name}:");
    for offset in offsets {
        let _ = print!(rt; " {offset}");
    }
    let _ = println!(rt; "");
}

pub fn tell_settled<R: Print>(rt: &R, count: usize, open_nodes: usize) {
    let _ = println!(rt; "settle: settled {count} open {open_nodes}");
}

pub fn tell_quiet<R: Print>(rt: &R, quiet: bool) {
    let _ = println!(rt; "run: quiet {quiet}");
}

/// The network over which the calls behind it are made.
pub fn tell_network<R: Print>(rt: &R, name: &str) {
    let _ = println!(rt; "{name}");
}
