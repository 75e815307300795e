//! Text that is put together word by word, as cells, rows and a page.

use std::alloc::Global;
use std::mem::swap;

/// A page, and what is not on it yet.
#[derive(Drop)]
pub struct Page {
    text: String,
    /// The cells of the row above, which still wait.
    above: String,
    /// The cells of a row, and before it of the same event's by the other reading.
    row: String,
    other: String,
    /// A cell, what it says behind the frames that are sent, and the cell to the left.
    cell: String,
    told: String,
    left: String,
    /// All of it found memory.
    is_whole: bool,
}

impl Page {
    /// Nothing yet.
    pub fn new(alloc: Global) -> Page {
        Page {
            text: String::new(alloc),
            above: String::new(alloc),
            row: String::new(alloc),
            other: String::new(alloc),
            cell: String::new(alloc),
            told: String::new(alloc),
            left: String::new(alloc),
            is_whole: true,
        }
    }

    /// The page, unless some of it found no memory.
    pub fn whole(&self) -> Option<&str> {
        if self.is_whole {
            Some(self.text.as_str())
        } else {
            None
        }
    }

    /// Some of it found no memory.
    pub fn spoil(&mut self) {
        self.is_whole = false;
    }

    /// Adds text to the page.
    pub fn print(&mut self, text: &str) {
        self.is_whole &= add(&mut self.text, text);
    }

    /// Adds a word to the cell.
    pub fn say(&mut self, word: &str) {
        self.is_whole &= add(&mut self.cell, word);
    }

    /// Adds a number.
    pub fn number(&mut self, number: u8) {
        self.is_whole &= write!(self.cell, "{}", number).is_ok();
    }

    /// Adds a letter.
    pub fn letter(&mut self, letter: char) {
        self.is_whole &= self.cell.push(letter).is_ok();
    }

    /// Begins what the cell says next.
    pub fn item(&mut self, word: &str) {
        if !self.cell.is_empty() {
            self.say("; ");
        }
        self.say(word);
    }

    /// Begins a cell.
    pub fn begin_cell(&mut self) {
        self.cell.clear();
    }

    /// Has what the cell says wait for the frames that are sent.
    pub fn set_aside(&mut self) {
        swap(&mut self.told, &mut self.cell);
    }

    /// Adds what waited for them.
    pub fn tell(&mut self) {
        if !self.told.is_empty() {
            self.item("");
            self.is_whole &= add(&mut self.cell, self.told.as_str());
            self.told.clear();
        }
    }

    /// Adds the cell to the row; a ditto mark, where it says what the cell to the left says.
    pub fn end_cell(&mut self) {
        if !self.cell.is_empty() && self.cell.as_str() == self.left.as_str() {
            self.is_whole &= add(&mut self.row, "\"");
        } else {
            self.is_whole &= add(&mut self.row, self.cell.as_str());
        }
        self.is_whole &= add(&mut self.row, "|");
        swap(&mut self.left, &mut self.cell);
    }

    /// Begins an event's row by the next reading.
    pub fn begin_row(&mut self) {
        swap(&mut self.row, &mut self.other);
        self.row.clear();
        self.left.clear();
        self.is_whole &= add(&mut self.row, "|");
    }

    /// Adds an event's rows: one, unless they differ by the reading of the tables; and its name alone, where the cells are
    /// those of the row above.
    pub fn end_row(&mut self, name: &str) {
        if self.row.as_str() != self.other.as_str() {
            self.end_rows(name);
        } else if self.row.as_str() == self.above.as_str() {
            self.print(", ");
            self.print(name);
        } else {
            self.begin(name);
            swap(&mut self.above, &mut self.row);
        }
    }

    // A row of one reading stands alone: no other event's name may seem to be of that reading, too.
    fn end_rows(&mut self, name: &str) {
        self.begin(name);
        self.print(" (profile)");
        self.is_whole &= add(&mut self.text, self.other.as_str());
        self.begin(name);
        self.print(" (annex B)");
        self.is_whole &= add(&mut self.text, self.row.as_str());
    }

    // Ends the row above, and begins one of this name.
    fn begin(&mut self, name: &str) {
        self.end_above();
        self.print("\n|");
        self.print(name);
    }

    fn end_above(&mut self) {
        self.is_whole &= add(&mut self.text, self.above.as_str());
        self.above.clear();
    }

    /// Ends a table.
    pub fn end_table(&mut self) {
        self.end_above();
        self.print("\n");
    }
}

/// Adds a word to a text, and tells whether there was memory.
fn add(text: &mut String, word: &str) -> bool {
    text.push_str(word).is_ok()
}
