//! What the words of the command line ask for.
use std::{env, io};

/// What to do with the sheets of the schedule.
#[derive(Clone, Copy)]
pub(crate) enum Task {
    /// print the calls with their answers, and the tables that are to be shown
    Play,
    /// print a diagram of what the calls did
    Chart,
}

/// The tasks in the order of the words: playing if there is no word, and none where a word names no task.
pub(crate) fn asked(rt: &HostRuntime) -> io::Result<Option<Vec<Task>>> {
    let mut tasks = Vec::new(rt.alloc());
    for word in env::args(rt)?.skip(1) {
        match named(word.as_str()) {
            Some(task) => tasks.push(task)?,
            None => return Ok(None),
        }
    }
    if tasks.is_empty() {
        tasks.push(Task::Play)?;
    }
    Ok(Some(tasks))
}

fn named(word: &str) -> Option<Task> {
    match word {
        "play" => Some(Task::Play),
        "chart" => Some(Task::Chart),
        _ => None,
    }
}
