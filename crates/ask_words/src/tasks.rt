//! The words of a task, and of a request.

ghost use Rattle.std.specs.Prelude.{◌≡◌, ◌∷◌, [], IfOk, Some, map};
ghost use Rattle.ask_words.specs.ClassWords.{classes_of_word};
ghost use Rattle.ask_words.specs.NameLists.{down_of};
ghost use Rattle.ask_words.specs.Tasks.{plain_task_of, failing_task_of, asking_task_of, task_of, request_with, request_behind, request_of};

use crate::classes::classes_in;
use crate::down::down_in;
use crate::questions::question_in;
use crate::request::{Classes, Lost, Request, Task};
use base_kit::{List, NoMemory};
use std::alloc::Global;

fn plain_task(word: &[u8]) -> Option<Task>
    ensures { result ≡ plain_task_of word.now }
{
    if word == b"count".as_slice() {
        return Some(Task::Count);
    }
    if word == b"solutions".as_slice() {
        return Some(Task::Solutions);
    }
    if word == b"forwards".as_slice() {
        return Some(Task::Forwards);
    }
    None
}

// A question that is asked also without each one link or router more.
fn failing_task(alloc: Global, what: &[u8], words: &[&[u8]]) -> Result<Option<Task>, NoMemory>
    ensures { IfOk result (λ task. task ≡ failing_task_of what.now (map (λ word. word.now) words.now)) }
{
    if what == b"links".as_slice() {
        return match question_in(alloc, words)? {
            Some(question) => Ok(Some(Task::FailingLinks(question))),
            None => Ok(None),
        };
    }
    if what == b"routers".as_slice() {
        return match question_in(alloc, words)? {
            Some(question) => Ok(Some(Task::FailingRouters(question))),
            None => Ok(None),
        };
    }
    Ok(None)
}

// The task that the words ask.
#[tactic(auto, unfolding(crate::specs::Tasks::task_of))]
fn task_in(alloc: Global, words: &[&[u8]]) -> Result<Option<Task>, NoMemory>
    ensures { IfOk result (λ task. task ≡ task_of (map (λ word. word.now) words.now)) }
{
    match words {
        [] => Ok(None),
        [word] => Ok(plain_task(word)),
        [first, second, rest @ ..] => {
            if *first == b"failing".as_slice() {
                return failing_task(alloc, second, rest);
            }
            match question_in(alloc, words)? {
                Some(question) => Ok(Some(Task::Answer(question))),
                None => Ok(None),
            }
        }
    }
}

// The task that the words ask for these classes, with these items down.
#[tactic(auto, unfolding(crate::specs::Tasks::request_with))]
fn with_task(
    alloc: Global,
    classes: Option<Classes>,
    down: Option<List<Lost>>,
    words: &[&[u8]],
) -> Result<Option<Request>, NoMemory>
    ensures { IfOk result (λ request. request ≡ request_with classes down (map (λ word. word.now) words.now)) }
{
    let Some(classes) = classes else {
        return Ok(None);
    };
    let Some(down) = down else {
        return Ok(None);
    };
    match task_in(alloc, words)? {
        Some(task) => Ok(Some(Request {
            classes,
            down,
            task,
        })),
        None => Ok(None),
    }
}

// The task that the words ask, where this is down.
fn with_down(
    alloc: Global,
    class: &[u8],
    down: &[u8],
    words: &[&[u8]],
) -> Result<Option<Request>, NoMemory>
    ensures { IfOk result (λ request. request ≡ request_with (classes_of_word class.now) (down_of down.now) (map (λ word. word.now) words.now)) }
{
    let down = down_in(alloc, down)?;
    with_task(alloc, classes_in(class), down, words)
}

// What the words behind the one for the classes ask: `without` and what is down, if that is asked, and
// the task.
fn request_behind(alloc: Global, class: &[u8], words: &[&[u8]]) -> Result<Option<Request>, NoMemory>
    ensures { IfOk result (λ request. request ≡ request_behind class.now (map (λ word. word.now) words.now)) }
{
    match words {
        [] => Ok(None),
        [_word] => with_task(alloc, classes_in(class), Some(List::new(alloc)), words),
        [word, second, rest @ ..] => {
            if *word == b"without".as_slice() {
                return with_down(alloc, class, second, rest);
            }
            with_task(alloc, classes_in(class), Some(List::new(alloc)), words)
        }
    }
}

/// What the words behind the file ask.
#[tactic(auto, unfolding(crate::specs::Tasks::request_of))]
pub(crate) fn request_in(alloc: Global, words: &[&[u8]]) -> Result<Option<Request>, NoMemory>
    ensures { IfOk result (λ request. request ≡ request_of (map (λ word. word.now) words.now)) }
{
    match words {
        [] => Ok(None),
        [class, rest @ ..] => request_behind(alloc, class, rest),
    }
}
