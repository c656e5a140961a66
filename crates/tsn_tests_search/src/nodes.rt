//! Conflicts, looks at nodes of a search, and steps of a search that two tellers share.

mod looks;
mod nodes;
mod rows;
mod shared_links;
mod shared_search;
