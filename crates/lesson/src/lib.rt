// A lesson: a run that is stepped in front of a class, by lines that are typed or kept as a file.
// What a line asks for is heard, done on the run that pauses, and told with what it changed.
#![tactic(auto)]

mod course;
mod heard;
mod messages;
mod wish;

pub use course::Lesson;
pub use messages::Messages;
