use std::alloc::Global;
use std::fmt::{Display, Write};

/// What is told of a row, part by part. The row is lost where it is none or memory is wanting.
#[derive(Drop)]
pub struct Told {
    alloc: Global,
    text: String,
    is_lost: bool,
}

impl Told {
    /// Nothing so far.
    pub fn new(alloc: Global) -> Told {
        Told {
            alloc,
            text: String::new(alloc),
            is_lost: false,
        }
    }

    /// Where the values of a row are made.
    pub fn alloc(&self) -> Global {
        self.alloc
    }

    /// Puts a word behind the text.
    pub fn word(&mut self, word: &str) {
        if self.text.push_str(word).is_err() {
            self.is_lost = true;
        }
    }

    /// Puts a number behind the text.
    pub fn number(&mut self, number: i128) {
        if write!(self.text, "{number}").is_err() {
            self.is_lost = true;
        }
    }

    /// Puts a word and a place behind the text.
    pub fn place(&mut self, word: &str, at: u32) {
        self.word(word);
        self.number(i128::from(at));
    }

    /// Puts a word and a count behind the text.
    pub fn count(&mut self, word: &str, count: usize) {
        self.word(word);
        self.number(count as i128);
    }

    /// Puts `true` or `false` behind the text.
    pub fn truth(&mut self, holds: bool) {
        self.word(if holds { "true" } else { "false" });
    }

    /// Puts a value behind the text, as it is displayed.
    pub fn value<T: Display>(&mut self, value: &T) {
        if write!(self.text, "{value}").is_err() {
            self.is_lost = true;
        }
    }

    /// Puts the letters that bytes are behind the text.
    pub fn letters(&mut self, bytes: &[u8]) {
        match str::from_utf8(bytes) {
            Ok(letters) => self.word(letters),
            Err(_) => self.lose(),
        }
    }

    /// Gives the row up.
    pub fn lose(&mut self) {
        self.is_lost = true;
    }

    /// Gives the row up, unless a part was made.
    pub fn lose_unless(&mut self, is_made: bool) {
        if !is_made {
            self.is_lost = true;
        }
    }

    /// What stands before the first mark of a text, and what stands behind it.
    pub fn halves<'t>(&mut self, text: &'t str, mark: &str) -> (&'t str, &'t str) {
        match text.split_once(mark) {
            Some(halves) => halves,
            None => {
                self.lose();
                (text, "")
            }
        }
    }

    /// The number that a text is.
    pub fn number_of(&mut self, text: &str) -> i128 {
        match text.parse::<i128>() {
            Ok(number) => number,
            Err(_) => {
                self.lose();
                0
            }
        }
    }

    /// The number below 2^32 that a text is.
    pub fn small_number_of(&mut self, text: &str) -> u32 {
        match text.parse::<u32>() {
            Ok(number) => number,
            Err(_) => {
                self.lose();
                0
            }
        }
    }

    /// The text, or `no row`.
    pub fn text(&self) -> &str {
        if self.is_lost {
            return "no row";
        }
        self.text.as_str()
    }
}
