//! What streams, links and frames are called, behind words.

use tsn_model::{Frame, Link};
use tsn_text::TextBuilder;
use tsn_text::pieces::{push_count, push_number};
use tsn_timing::Problem;

/// Writes words and the name of a stream, or its number where there is no such stream.
pub fn push_stream(text: &mut TextBuilder, problem: &Problem, words: &str, stream: usize) {
    text.push_str(words);
    if stream < problem.streams() {
        text.push_str(problem.stream_name(stream));
    } else {
        text.push_count(stream);
    }
}

/// Writes words, the number of a directed link and the names of the nodes that it joins.
pub fn push_link(text: &mut TextBuilder, problem: &Problem, words: &str, number: usize) {
    push_count(text, words, number);
    if number < problem.links() {
        push_ends(text, problem, problem.link(number));
    }
}

fn push_ends(text: &mut TextBuilder, problem: &Problem, link: Link) {
    let Link { from, to, .. } = link;
    if from < problem.nodes() && to < problem.nodes() {
        text.push_str(", ");
        text.push_str(problem.node_name(from));
        text.push_str(" to ");
        text.push_str(problem.node_name(to));
    }
}

/// Writes which frame of a stream it is, and words behind it.
pub fn push_frame(text: &mut TextBuilder, problem: &Problem, frame: Frame, words: &str) {
    push_stream(text, problem, "stream ", frame.stream);
    if frame.shift != 0 {
        push_number(text, "'s frame ", frame.shift);
        text.push_str(" ns later");
    }
    text.push_str(words);
}

/// Writes which of a stream's frames it is, by how much it comes after another one.
pub fn push_later(text: &mut TextBuilder, later: i64) {
    if later != 0 {
        push_number(text, "'s frame ", later.unsigned_abs());
        text.push_str(if later > 0 { " ns later" } else { " ns sooner" });
    }
}
