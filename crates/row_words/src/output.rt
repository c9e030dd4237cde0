//! The text of a result: words with a space between them.
use std::alloc::{AllocError, Global};

/// How many bytes a result may have.
const MOST_BYTES: usize = 1 << 20;

/// The text of a result. It has its room from the start, so that no result takes memory. What goes beyond is left out.
#[derive(Drop)]
pub struct Output {
    text: String,
}

/// Returns whether `byte` stands for itself in a word.
fn is_plain(byte: u8) -> bool {
    byte.is_ascii_alphanumeric() || matches!(byte, b'.' | b'-' | b'_' | b'/')
}

impl Output {
    /// Makes an empty text.
    pub fn new(alloc: Global) -> Result<Output, AllocError> {
        let text = String::with_capacity(alloc, MOST_BYTES)?;
        Ok(Output { text })
    }

    /// Returns the text.
    pub fn as_str(&self) -> &str {
        self.text.as_str()
    }

    /// Empties the text.
    pub fn clear(&mut self) {
        self.text.clear();
    }

    /// Appends a space, if something stands there already.
    fn part(&mut self) {
        if !self.text.is_empty() {
            let _put = self.text.push_str(" ");
        }
    }

    /// Appends a word.
    pub fn word(&mut self, word: &str) {
        self.part();
        let _put = self.text.push_str(word);
    }

    /// Appends a number.
    pub fn number(&mut self, number: u64) {
        self.part();
        let _put = write!(self.text, "{number}");
    }

    /// Appends bits, in four octal digits at least.
    pub fn octal(&mut self, bits: u16) {
        self.part();
        let _put = write!(self.text, "{bits:04o}");
    }

    /// Appends `yes` or `no`.
    pub fn flag(&mut self, is_so: bool) {
        self.word(if is_so { "yes" } else { "no" });
    }

    /// Appends bytes: each by itself, or as `%` and two hexadecimal digits. No bytes are written `0x`.
    pub fn bytes(&mut self, bytes: &[u8]) {
        self.part();
        if bytes.is_empty() {
            let _put = self.text.push_str("0x");
        }
        self.escaped(bytes);
    }

    /// Appends a slash and bytes to the last word.
    pub fn behind_slash(&mut self, bytes: &[u8]) {
        let _put = self.text.push_str("/");
        self.escaped(bytes);
    }

    /// Appends bytes to the last word.
    fn escaped(&mut self, bytes: &[u8]) {
        for byte in bytes {
            let byte = *byte;
            if is_plain(byte) {
                let _put = self.text.push(char::from(byte));
            } else {
                let _put = write!(self.text, "%{byte:02x}");
            }
        }
    }

    /// Appends bytes as `0x` and two hexadecimal digits for each.
    pub fn hex(&mut self, bytes: &[u8]) {
        self.word("0x");
        for byte in bytes {
            let byte = *byte;
            let _put = write!(self.text, "{byte:02x}");
        }
    }

    /// Appends a byte of a printed line, without a space before it: one of printable ASCII by itself, or each other one as
    /// `%` and two hexadecimal digits.
    pub fn printed(&mut self, byte: u8) {
        if byte == b' ' || byte.is_ascii_graphic() {
            let _put = self.text.push(char::from(byte));
        } else {
            let _put = write!(self.text, "%{byte:02x}");
        }
    }
}
