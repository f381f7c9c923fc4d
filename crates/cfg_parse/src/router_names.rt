//! How the tables of a router hash its names, by a look at its lines before they are read.

use memchr::memchr_iter;
use numbered_names::{FEW, NameDigest, NameHashing};

fn is_blank(b: u8) -> bool {
    b == b' ' || b == b'\t'
}

// Whether a line is the top line `end`.
fn is_end(line: &[u8]) -> bool {
    let [b'e', b'n', b'd', rest @ ..] = line else {
        return false;
    };
    rest.iter().all(|b| is_blank(*b) || *b == b'\r')
}

// Whether a line may put a name into a table: a top line, or one of interfaces that are passive or not.
fn may_name(line: &[u8]) -> bool {
    match line {
        [b'!', ..] => false,
        [b' ', b'p', ..] => true,
        [b' ', b'n', b'o', ..] => true,
        [b' ', second, ..] => is_blank(*second),
        _ => true,
    }
}

// How many lines name something, by the table that has its name.
#[derive(Clone, Copy)]
struct Counts {
    interfaces: usize,
    lists: usize,
    others: usize,
}

impl Counts {
    fn with(self, line: &[u8]) -> Counts {
        let Counts {
            mut interfaces,
            mut lists,
            mut others,
        } = self;
        match line {
            [b'i', b'n', ..] => interfaces = interfaces.wrapping_add(1),
            [b'i', b'p', ..] => lists = lists.wrapping_add(1),
            _ => others = others.wrapping_add(1),
        }
        Counts {
            interfaces,
            lists,
            others,
        }
    }

    fn are_many(self) -> bool {
        self.interfaces > FEW || self.lists > FEW || self.others > FEW
    }
}

// Whether a table may have so many names, from lines up to the line `end`, that it hashes them with a key.
fn are_many(text: &[u8]) -> bool {
    let mut counts = Counts {
        interfaces: 0,
        lists: 0,
        others: 0,
    };
    let mut from = 0;
    for upto in memchr_iter(b'\n', text) {
        let Some(line) = text.get(from..upto) else {
            return false;
        };
        if is_end(line) {
            return false;
        }
        if may_name(line) {
            counts = counts.with(line);
        }
        if counts.are_many() {
            return true;
        }
        from = upto.wrapping_add(1);
    }
    false
}

// How many bytes a line shares with the one before it, up to 255.
fn shared(before: &[u8], line: &[u8]) -> u8 {
    let mut count: u8 = 0;
    for (earlier, later) in before.iter().zip(line.iter()) {
        if count == 255 || *earlier != *later {
            return count;
        }
        count += 1;
    }
    count
}

// Adds a line to the digest: how many bytes it shares with the one before it, and its others. That is
// little where names count up, and still says each byte of each line: the count is one byte, no line has
// a line feed, and the digest puts one behind both, so from the start each line can be told by the one
// before it.
fn add_line(names: &mut NameDigest, before: &[u8], line: &[u8]) {
    let count = shared(before, line);
    names.add(&[count]);
    match line.get(usize::from(count)..) {
        Some(others) => names.add(others),
        None => names.add(line),
    }
}

// The digest of the lines that may name something, up to the line `end`.
fn digest_of(text: &[u8]) -> NameDigest {
    let mut names = NameDigest::new();
    let mut before: &[u8] = &[];
    let mut from = 0;
    for upto in memchr_iter(b'\n', text) {
        let Some(line) = text.get(from..upto) else {
            return names;
        };
        if is_end(line) {
            return names;
        }
        if may_name(line) {
            add_line(&mut names, before, line);
            before = line;
        }
        from = upto.wrapping_add(1);
    }
    names
}

/// How the tables of the router whose lines begin at a place hash its names. If they are many, the key is a
/// digest of all lines that may name something.
pub(crate) fn hashing_from(bytes: &[u8], from: usize) -> NameHashing {
    match bytes.get(from..) {
        Some(text) if are_many(text) => digest_of(text).hashing(),
        _ => NameHashing::plain(),
    }
}
