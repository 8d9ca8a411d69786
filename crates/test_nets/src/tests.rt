//! The calls of a graph, and scripts of edits against a plain net.
mod calls;
mod comparing;
mod draws;
mod edited;
mod plain_net;
mod scripts;
