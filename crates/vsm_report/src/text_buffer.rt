// Text that is gathered before it goes to a sink.
ghost use Rattle.std.specs.Prelude.{◌≡◌, ◌+◌, ◌≤◌, [], ◌∷◌, ◌++◌, length, OnOk, OnErr};
ghost use Rattle.std.specs.Fmt.{decimal};
ghost use Rattle.vsm_base.specs.Whole.{Puts};
ghost use Rattle.vsm_report.specs.Gathering.{Gathers};
ghost use Rattle.vsm_report.specs.Pieces.{hex_digits};

use crate::digits;
use std::marker::Model;
use vsm_base::{Sink, WriteFailed, put_whole};

const CAPACITY: usize = 16384;

/// Text on its way to a sink, of which at most 16,384 bytes are held. Contracts see the bytes that are held. It
/// takes no memory. This project's own.
#[derive(Drop)]
pub struct TextBuffer {
    bytes: [u8; CAPACITY],
    held: usize,
}

impl Model for TextBuffer {
    ghost use Rattle.std.specs.Prelude.{List, ℕ, ◌≤◌, take};

    ghost Value = { List ℕ };

    ghost view = { λ b. take b.held b.bytes };

    ghost invariant = { λ b. b.held ≤ 16384 };
}

impl TextBuffer {
    /// A buffer that holds nothing.
    pub fn new() -> TextBuffer
        ensures { result ≡ [] }
    {
        TextBuffer {
            bytes: [0; CAPACITY],
            held: 0,
        }
    }

    /// Hands what is held to the sink, and then holds nothing. `WriteFailed` at the first write that fails: a
    /// front of what is held was written, and all of it is still held.
    pub fn flush<K: Sink>(&mut self, sink: &mut K) -> Result<(), WriteFailed>
        ensures put { Puts (K.taken sink.old) (K.taken sink.new) (K.faults sink.old) (K.faults sink.new) result self.old }
        ensures empty { OnOk result (self.new ≡ []) }
        ensures held { OnErr result (self.new ≡ self.old) }
    {
        put_whole(sink, &self.bytes[..self.held])?;
        self.held = 0;
        Ok(())
    }

    /// Sees to it that there is room for so many bytes more: where there isn't, it hands what is held to the sink.
    /// `WriteFailed` at the first write that fails, and then a front of what was held was written.
    pub fn make_room<K: Sink>(&mut self, sink: &mut K, room: usize) -> Result<(), WriteFailed>
        requires { room ≤ 16384 }
        ensures gathers { Gathers (K.taken sink.old) self.old (K.taken sink.new) self.new (K.faults sink.old) (K.faults sink.new) result [] }
        ensures room { OnOk result (length self.new + room ≤ 16384) }
    {
        if room > CAPACITY - self.held {
            self.flush(sink)?;
        }
        Ok(())
    }

    /// Adds a byte behind what is held, where there is room.
    pub fn add_byte(&mut self, byte: u8)
        requires { length self.old + 1 ≤ 16384 }
        ensures text { self.new ≡ self.old ++ byte ∷ [] }
        ensures length { length self.new ≡ length self.old + 1 }
    {
        self.bytes[self.held] = byte;
        self.held += 1;
    }

    /// Adds text behind what is held, where there is room.
    pub fn add(&mut self, text: &[u8])
        requires { length self.old + length text.now ≤ 16384 }
        ensures text { self.new ≡ self.old ++ text.now }
        ensures length { length self.new ≡ length self.old + length text.now }
    {
        let end = self.held + text.len();
        self.bytes[self.held..end].copy_from_slice(text);
        self.held = end;
    }

    /// Adds a number in decimal digits behind what is held, where there is room.
    pub fn add_decimal(&mut self, n: u64)
        requires { length self.old + 20 ≤ 16384 }
        ensures text { self.new ≡ self.old ++ decimal n }
        ensures length { length self.new ≤ length self.old + 20 }
    {
        if n < 10 {
            return self.add_byte(b'0' + n as u8);
        }
        if n < 100 {
            self.add_byte(b'0' + (n / 10) as u8);
            return self.add_byte(b'0' + (n % 10) as u8);
        }
        let mut digits = itoa::Buffer::new();
        self.add(digits.format(n).as_bytes());
    }

    /// Adds the last 16 hexadecimal digits of a number behind what is held, where there is room.
    pub fn add_hex(&mut self, n: u64)
        requires { length self.old + 16 ≤ 16384 }
        ensures text { self.new ≡ self.old ++ hex_digits 16 n }
        ensures length { length self.new ≡ length self.old + 16 }
    {
        let end = self.held + 16;
        digits::hex(n, &mut self.bytes[self.held..end]);
        self.held = end;
    }

    // The same byte by byte, where the text may not fit.
    fn put_bytes<K: Sink>(&mut self, sink: &mut K, text: &[u8]) -> Result<(), WriteFailed>
        ensures { Gathers (K.taken sink.old) self.old (K.taken sink.new) self.new (K.faults sink.old) (K.faults sink.new) result text.now }
    {
        for byte in text {
            self.make_room(sink, 1)?;
            self.add_byte(*byte);
        }
        Ok(())
    }

    /// Adds text behind what is held, and hands what is held to the sink each time that the buffer is full and
    /// more comes. `WriteFailed` at the first write that fails: a front of what was held and the text was written.
    pub fn put<K: Sink>(&mut self, sink: &mut K, text: &[u8]) -> Result<(), WriteFailed>
        ensures { Gathers (K.taken sink.old) self.old (K.taken sink.new) self.new (K.faults sink.old) (K.faults sink.new) result text.now }
    {
        if text.len() > CAPACITY - self.held {
            return self.put_bytes(sink, text);
        }
        self.add(text);
        Ok(())
    }
}
