//! What is expected where a text stops being JSON.
use city_model::OutOfMemory;
use std::alloc::Global;
use std::str;

/// Most arrays and objects round a value.
const DEEPEST: usize = 127;

/// What is expected, or what stands there instead.
#[derive(Clone, Copy, PartialEq, Eq)]
pub enum Expected {
    Value,
    ValueOrBracket,
    Name,
    NameOrBrace,
    Colon,
    CommaOrBracket,
    CommaOrBrace,
    End,
    Escape,
    HexDigit,
    Surrogate,
    Digit,
    /// A control character stands in a text.
    Escaped,
    Utf8,
    /// The text nests too deep.
    Shallower,
    /// Another line of JSON follows.
    OneLine,
    /// A number that JSON doesn't have.
    NotANumber,
    Finite,
}

impl Expected {
    /// In words that go on a sentence.
    pub fn words(self) -> &'static str {
        match self {
            Expected::Value => "a value is expected",
            Expected::ValueOrBracket => "a value or a closing bracket is expected",
            Expected::Name => "a name in quotes is expected",
            Expected::NameOrBrace => "a name in quotes or a closing brace is expected",
            Expected::Colon => "a colon is expected",
            Expected::CommaOrBracket => "a comma or a closing bracket is expected",
            Expected::CommaOrBrace => "a comma or a closing brace is expected",
            Expected::End => "the end of the text is expected",
            Expected::Escape => "an escape is expected behind the backslash",
            Expected::HexDigit => "a hexadecimal digit is expected",
            Expected::Surrogate => "the other half of a surrogate pair is expected",
            Expected::Digit => "a digit is expected",
            Expected::Escaped => "a control character has to be escaped",
            Expected::Utf8 => "the bytes aren't UTF-8",
            Expected::Shallower => "the text nests deeper than 127",
            Expected::OneLine => "a second line of JSON follows",
            Expected::NotANumber => "NaN is no number of JSON",
            Expected::Finite => "Infinity is no number of JSON",
        }
    }
}

/// What is open round a value.
#[derive(Clone, Copy)]
enum Open {
    Array,
    Object,
}

/// Half of a surrogate pair, as far as hexadecimal digits say.
#[derive(Clone, Copy, PartialEq, Eq)]
enum Half {
    Unknown,
    Neither,
    High,
    Low,
}

/// Where in a text the next byte stands.
#[derive(Clone, Copy)]
enum State {
    Value,
    FirstItem,
    FirstName,
    Name,
    Colon,
    /// Behind a value.
    Behind,
    /// The rest of a word such as `true`.
    Word(&'static [u8]),
    Text(Place),
    Escape(Place),
    /// So many hexadecimal digits of an escape stand before.
    Hex(Place, usize, Half),
    Minus,
    Zero,
    Integer,
    Point,
    Fraction,
    Exponent,
    Signed,
    Exponents,
}

/// What a text is, and whether the first half of a surrogate pair stands before.
#[derive(Clone, Copy)]
struct Place {
    is_name: bool,
    is_half: bool,
}

/// A walk through a text.
#[derive(Drop)]
struct Walk {
    state: State,
    open: Vec<Open>,
    /// Whether a newline stands behind the whole value.
    has_newline: bool,
}

/// What is expected at the first byte that isn't JSON's; None if there is no such byte.
pub fn expected_in(alloc: Global, text: &[u8]) -> Result<Option<Expected>, OutOfMemory> {
    let mut walk = Walk {
        state: State::Value,
        open: Vec::new(alloc),
        has_newline: false,
    };
    for (at, byte) in text.iter().enumerate() {
        if let Some(expected) = walk.step(*byte)? {
            if str::from_utf8(&text[..at]).is_err() {
                return Ok(Some(Expected::Utf8));
            }
            return Ok(Some(walk.named(expected, &text[at..])));
        }
    }
    if str::from_utf8(text).is_err() {
        return Ok(Some(Expected::Utf8));
    }
    Ok(None)
}

/// Whether a text begins with a character in UTF-8.
fn begins_with_character(text: &[u8]) -> bool {
    for length in 1..5 {
        if length <= text.len() && str::from_utf8(&text[..length]).is_ok() {
            return true;
        }
    }
    false
}

impl Walk {
    /// A narrower name for what is expected at the begin of the rest.
    fn named(&self, expected: Expected, rest: &[u8]) -> Expected {
        if expected == Expected::End && self.has_newline {
            return Expected::OneLine;
        }
        if rest.starts_with(b"NaN") {
            return Expected::NotANumber;
        }
        if rest.starts_with(b"Infinity") {
            return Expected::Finite;
        }
        if begins_with_character(rest) {
            expected
        } else {
            Expected::Utf8
        }
    }

    /// Goes past a byte, or says what is expected in its place.
    fn step(&mut self, byte: u8) -> Result<Option<Expected>, OutOfMemory> {
        match self.state {
            State::Word(rest) => Ok(self.in_word(rest, byte)),
            State::Text(place) => Ok(self.in_text(place, byte)),
            State::Escape(place) => Ok(self.in_escape(place, byte)),
            State::Hex(place, count, half) => Ok(self.in_hex(place, count, half, byte)),
            State::Minus
            | State::Zero
            | State::Integer
            | State::Point
            | State::Fraction
            | State::Exponent
            | State::Signed
            | State::Exponents => self.in_number(byte),
            _ => self.between(byte),
        }
    }

    /// Between values and texts.
    fn between(&mut self, byte: u8) -> Result<Option<Expected>, OutOfMemory> {
        if matches!(byte, b' ' | b'\t' | b'\n' | b'\r') {
            if byte == b'\n' && self.open.is_empty() && matches!(self.state, State::Behind) {
                self.has_newline = true;
            }
            return Ok(None);
        }
        match (self.state, byte) {
            (State::FirstItem, b']') | (State::FirstName, b'}') => {
                self.close();
                Ok(None)
            }
            (State::FirstItem, _) => self.begin(byte, Expected::ValueOrBracket),
            (State::FirstName | State::Name, b'"') => {
                self.state = State::Text(Place {
                    is_name: true,
                    is_half: false,
                });
                Ok(None)
            }
            (State::FirstName, _) => Ok(Some(Expected::NameOrBrace)),
            (State::Name, _) => Ok(Some(Expected::Name)),
            (State::Colon, b':') => {
                self.state = State::Value;
                Ok(None)
            }
            (State::Colon, _) => Ok(Some(Expected::Colon)),
            (State::Behind, _) => Ok(self.behind(byte)),
            _ => self.begin(byte, Expected::Value),
        }
    }

    /// Behind a value.
    fn behind(&mut self, byte: u8) -> Option<Expected> {
        match (self.open.last(), byte) {
            (None, _) => Some(Expected::End),
            (Some(Open::Array), b',') => {
                self.state = State::Value;
                None
            }
            (Some(Open::Object), b',') => {
                self.state = State::Name;
                None
            }
            (Some(Open::Array), b']') | (Some(Open::Object), b'}') => {
                self.close();
                None
            }
            (Some(Open::Array), _) => Some(Expected::CommaOrBracket),
            (Some(Open::Object), _) => Some(Expected::CommaOrBrace),
        }
    }

    /// Closes the innermost array or object.
    fn close(&mut self) {
        let _ = self.open.pop();
        self.state = State::Behind;
    }

    /// Begins a value.
    fn begin(&mut self, byte: u8, expected: Expected) -> Result<Option<Expected>, OutOfMemory> {
        self.state = match byte {
            b'[' => return self.enter(Open::Array, State::FirstItem),
            b'{' => return self.enter(Open::Object, State::FirstName),
            b'"' => State::Text(Place {
                is_name: false,
                is_half: false,
            }),
            b'-' => State::Minus,
            b'0' => State::Zero,
            b'1'..=b'9' => State::Integer,
            b't' => State::Word(b"rue"),
            b'f' => State::Word(b"alse"),
            b'n' => State::Word(b"ull"),
            _ => return Ok(Some(expected)),
        };
        Ok(None)
    }

    fn enter(&mut self, open: Open, state: State) -> Result<Option<Expected>, OutOfMemory> {
        if self.open.len() >= DEEPEST {
            return Ok(Some(Expected::Shallower));
        }
        self.open.push(open)?;
        self.state = state;
        Ok(None)
    }

    fn in_word(&mut self, rest: &'static [u8], byte: u8) -> Option<Expected> {
        match rest {
            [first, others @ ..] if *first == byte => {
                self.state = if others.is_empty() {
                    State::Behind
                } else {
                    State::Word(others)
                };
                None
            }
            _ => Some(Expected::Value),
        }
    }

    fn in_text(&mut self, place: Place, byte: u8) -> Option<Expected> {
        if place.is_half && byte != b'\\' {
            return Some(Expected::Surrogate);
        }
        match byte {
            b'"' => {
                self.state = if place.is_name {
                    State::Colon
                } else {
                    State::Behind
                };
                None
            }
            b'\\' => {
                self.state = State::Escape(place);
                None
            }
            0..=0x1f => Some(Expected::Escaped),
            _ => None,
        }
    }

    fn in_escape(&mut self, place: Place, byte: u8) -> Option<Expected> {
        match byte {
            b'u' => {
                self.state = State::Hex(place, 0, Half::Unknown);
                None
            }
            _ if place.is_half => Some(Expected::Surrogate),
            b'"' | b'\\' | b'/' | b'b' | b'f' | b'n' | b'r' | b't' => {
                self.state = State::Text(place);
                None
            }
            _ => Some(Expected::Escape),
        }
    }

    /// In the four digits of an escape. The first two say whether it is half of a pair.
    fn in_hex(&mut self, place: Place, count: usize, half: Half, byte: u8) -> Option<Expected> {
        if !byte.is_ascii_hexdigit() {
            return Some(Expected::HexDigit);
        }
        let half = match (count, half, byte) {
            (0, _, b'd' | b'D') => Half::Unknown,
            (0, _, _) => Half::Neither,
            (1, Half::Unknown, b'8' | b'9' | b'a' | b'b' | b'A' | b'B') => Half::High,
            (1, Half::Unknown, b'0'..=b'7') => Half::Neither,
            (1, Half::Unknown, _) => Half::Low,
            _ => half,
        };
        if count < 3 {
            self.state = State::Hex(place, count + 1, half);
            return None;
        }
        if place.is_half != (half == Half::Low) {
            return Some(Expected::Surrogate);
        }
        self.state = State::Text(Place {
            is_name: place.is_name,
            is_half: half == Half::High,
        });
        None
    }

    fn in_number(&mut self, byte: u8) -> Result<Option<Expected>, OutOfMemory> {
        let next = match (self.state, byte) {
            (State::Minus, b'0') => State::Zero,
            (State::Minus | State::Integer, b'0'..=b'9') => State::Integer,
            (State::Point | State::Fraction, b'0'..=b'9') => State::Fraction,
            (State::Exponent | State::Signed | State::Exponents, b'0'..=b'9') => State::Exponents,
            (State::Exponent, b'+' | b'-') => State::Signed,
            (State::Zero | State::Integer, b'.') => State::Point,
            (State::Zero | State::Integer | State::Fraction, b'e' | b'E') => State::Exponent,
            (State::Minus | State::Point | State::Exponent | State::Signed, _) => {
                return Ok(Some(Expected::Digit));
            }
            _ => {
                self.state = State::Behind;
                return self.between(byte);
            }
        };
        self.state = next;
        Ok(None)
    }
}
