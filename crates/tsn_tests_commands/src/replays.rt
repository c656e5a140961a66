//! The replay of cycles.

mod playing;
mod worked;
