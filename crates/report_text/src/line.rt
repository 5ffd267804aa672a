//! A line of a report while its words are written, and the words that need more than their bytes. What is
//! written was read, and so is within its type: the clauses `within` say it to the callers' proofs.

ghost use Rattle.std.specs.Prelude.{◌≡◌, ◌++◌, ◌∷◌, [], OnOk, map, decimal, drop, ◌<◌, ◌^◌};
ghost use Rattle.report_text.specs.Lines.{blank, line_end, spelled, named, hex_word, uuid_word, handle_words, behind_first};
ghost use Rattle.report_text.specs.Printing.{Prints};
ghost use Rattle.report_text.specs.Within.{AreNumbers, AreBytes};

use crate::refused::PrintRefused;
use hex::encode;
use itoa::Buffer;
use kernel_types::values::NoMemory;
use outside_io::{Sink, write_all};
use std::alloc::Global;
use std::marker::Model;
use uuid::Uuid;

/// The words of a line, a blank before each.
#[derive(Drop)]
pub struct Line {
    bytes: Vec<u8>,
}

impl Model for Line {
    ghost use Rattle.std.specs.Prelude.{List, ℕ};

    ghost Value = { List ℕ };

    ghost view = { λ line. line.bytes.items };
}

impl Line {
    /// A line without words. Nothing is allocated yet.
    pub fn new(alloc: Global) -> Line
        ensures { result ≡ [] }
    {
        Line {
            bytes: Vec::new(alloc),
        }
    }

    /// Takes all words away.
    pub fn clear(&mut self)
        ensures { self.new ≡ [] }
    {
        self.bytes.clear();
    }

    pub fn as_slice(&self) -> &[u8]
        ensures { result.now ≡ self.now }
    {
        self.bytes.as_slice()
    }

    /// The text of the line, without the blank before its first word.
    pub fn text(&self) -> &[u8]
        ensures { result.now ≡ behind_first self.now }
    {
        after_blank(self.bytes.as_slice())
    }

    /// Ends the line.
    pub fn end(&mut self) -> Result<(), NoMemory>
        ensures { OnOk result (self.new ≡ self.old ++ line_end ∷ []) }
    {
        self.bytes.push(b'\n')?;
        Ok(())
    }

    /// A word of its own characters, as a path or a name.
    pub fn name(&mut self, name: &[u8]) -> Result<(), NoMemory>
        ensures { OnOk result (self.new ≡ self.old ++ blank ∷ name.now) }
    {
        self.bytes.push(b' ')?;
        self.bytes.extend_from_slice(name)?;
        Ok(())
    }

    /// A word of the report's language.
    pub fn word(&mut self, word: &str) -> Result<(), NoMemory>
        ensures { OnOk result (self.new ≡ self.old ++ blank ∷ word.now) }
    {
        self.name(word.as_bytes())
    }

    /// A number in decimal.
    pub fn number(&mut self, number: u64) -> Result<(), NoMemory>
        ensures told { OnOk result (self.new ≡ self.old ++ blank ∷ decimal number) }
        ensures within { number < 2 ^ 64 }
    {
        let mut buffer = Buffer::new();
        self.word(buffer.format(number))
    }

    /// A word and the number that it names.
    pub fn named(&mut self, name: &str, number: u64) -> Result<(), NoMemory>
        ensures { OnOk result (self.new ≡ self.old ++ named name.now number) }
    {
        self.word(name)?;
        self.number(number)
    }

    /// A word, and the numbers that follow it.
    pub fn numbers(&mut self, word: &str, numbers: &[u32]) -> Result<(), NoMemory>
        ensures told { OnOk result (self.new ≡ self.old ++ spelled (word.now ∷ map decimal numbers.now)) }
        ensures within { AreNumbers numbers.now }
    {
        self.word(word)?;
        for number in numbers {
            self.number(u64::from(*number))?;
        }
        Ok(())
    }

    /// Handles behind the word that leads them, which is left out where there are none.
    pub fn handles(&mut self, leader: &str, handles: &[u32]) -> Result<(), NoMemory>
        ensures told { OnOk result (self.new ≡ self.old ++ spelled (handle_words leader.now handles.now)) }
        ensures within { AreNumbers handles.now }
    {
        if handles.is_empty() {
            return Ok(());
        }
        self.numbers(leader, handles)
    }

    /// Bytes as lower-case hexadecimal digits; a dash where there are none.
    pub fn hex(&mut self, bytes: &[u8]) -> Result<(), NoMemory>
        ensures told { OnOk result (self.new ≡ self.old ++ blank ∷ hex_word bytes.now) }
        ensures within { AreBytes bytes.now }
    {
        if bytes.is_empty() {
            return self.word("-");
        }
        let digits = encode(*self.bytes.allocator(), bytes)?;
        self.word(digits.as_str())
    }

    /// A UUID in its hyphenated form.
    pub fn uuid(&mut self, uuid: u128) -> Result<(), NoMemory>
        ensures { OnOk result (self.new ≡ self.old ++ blank ∷ uuid_word uuid) }
    {
        let mut buffer = Uuid::encode_buffer();
        let text = Uuid::from_u128(uuid).hyphenated().encode_lower(&mut buffer);
        self.word(text)
    }
}

// The first blank goes; where nothing follows it, there is none.
fn after_blank(text: &[u8]) -> &[u8]
    ensures { result.now ≡ behind_first text.now }
{
    match text {
        [] => text,
        [_] => text,
        [_, rest @ ..] => rest,
    }
}

/// Ends the line and writes it without its first blank, by one call of `write_all`.
pub fn print_line<K: Sink>(line: &mut Line, sink: &mut K) -> Result<(), PrintRefused>
    ensures { Prints (K.written sink.old) (K.written sink.new) (K.faults sink.old) (K.faults sink.new) (K.calls sink.old) (K.calls sink.new) result (drop 1 line.old ++ line_end ∷ []) }
{
    line.end()?;
    write_all(sink, after_blank(line.as_slice()))?;
    Ok(())
}
