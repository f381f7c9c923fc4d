//! The words of a call, and what they ask for.

ghost use Rattle.std.specs.Prelude.{◌≡◌};
ghost use Rattle.all_classes.specs.Requests.{file_of, first_of, last_of, range_of, request_of, request_of_all, request_of_range};
ghost use Rattle.bonsai_top.specs.Words.{bytes_of_words};

use bonsai_top::{ClassCommand, class_command, short_number};

/// The numbers of the classes that are asked.
#[derive(Clone, Copy, Debug, PartialEq, Eq)]
pub enum Asked {
    /// Those of all classes.
    All,
    /// The numbers from one to another one.
    Range { from: u32, to: u32 },
}

impl Asked {
    /// The first number.
    pub fn first(&self) -> u32
        ensures { result ≡ first_of self.now }
    {
        match self {
            Asked::All => 1,
            Asked::Range { from, .. } => *from,
        }
    }

    /// The last number, if there are so many classes.
    pub fn last(&self, classes: u32) -> u32
        ensures { result ≡ last_of self.now classes }
    {
        match self {
            Asked::All => classes,
            Asked::Range { to, .. } => *to,
        }
    }
}

/// What words ask for: a command on each of some classes.
#[derive(Clone, Copy, Debug, PartialEq, Eq)]
pub struct Request {
    pub command: ClassCommand,
    pub asked: Asked,
}

// The numbers from one to another one, which is not less.
fn range(from: &str, to: &str) -> Option<Asked>
    ensures { result ≡ range_of from.now to.now }
{
    let from = short_number(from)?;
    let to = short_number(to)?;
    if from <= to {
        Some(Asked::Range { from, to })
    } else {
        None
    }
}

// A command on all classes.
fn on_all(name: &str) -> Option<Request>
    ensures { result ≡ request_of_all name.now }
{
    let command = class_command(name)?;
    Some(Request {
        command,
        asked: Asked::All,
    })
}

// A command on the classes of a range.
fn on_range(name: &str, from: &str, to: &str) -> Option<Request>
    ensures { result ≡ request_of_range name.now from.now to.now }
{
    let command = class_command(name)?;
    let asked = range(from, to)?;
    Some(Request { command, asked })
}

/// What the words ask for.
#[tactic(auto, unfolding(crate::specs::Requests::request_of))]
pub fn read_words(words: &[String]) -> Option<Request>
    ensures { result ≡ request_of (bytes_of_words words.now) }
{
    match words {
        [_file, name] => on_all(name.as_str()),
        [_file, _name, _from] => None,
        [_file, name, from, to] => on_range(name.as_str(), from.as_str(), to.as_str()),
        _ => None,
    }
}

/// The file that the words name.
pub fn file_word(words: &[String]) -> &str
    ensures { result.now ≡ file_of (bytes_of_words words.now) }
{
    match words {
        [file, ..] => file.as_str(),
        _ => "",
    }
}
