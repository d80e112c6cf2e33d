// What a pass knows.
use std::collections::LinkedList;

/// What a pass knows and has done, for contracts alone: no value of it is ever made.
///
/// Plain data: the number of jobs, the numbers drawn, the jobs published, the jobs ever borrowed,
/// the job whose post is held to learn from it, and how many passes the view stands for.
pub struct View {
    pub jobs: u32,
    pub drawn: LinkedList<u64>,
    pub published: LinkedList<u32>,
    pub borrowed: LinkedList<u32>,
    pub holds: Option<u32>,
    pub passes: u32,
}
