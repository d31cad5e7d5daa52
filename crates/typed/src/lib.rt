// What people type and hand over: numbers in decimal, and words as hexadecimal text or as raw bytes.
// Every text has one answer: what it says, or what is wrong with it and where.
#![tactic(auto)]

ghost use Rattle.std.specs.Prelude.{◌≡◌, true, ◌+◌, ◌*◌, ◌-◌, ◌^◌, ◌<◌};
ghost use Rattle.text.specs.Number.{is_digit};
ghost use Rattle.typed.specs.Number.{amount_of, capped};
ghost use Rattle.typed.specs.Words.{is_white, hex_digit, later, past, start, troubled, skipped, grown, onward, is_part, parted_by, digit_on, text_on, raw_on, closed_on, decimal_digit_on, decimal_on, raw_bytes, byte_on, CanGrow, Takes, TakesOne, trouble_of};

use instruction::Instruction;

// ---- Numbers.

// Why a text says no number that is allowed.
#[derive(Clone, Copy, PartialEq, Eq)]
pub enum AmountError {
    NoNumber,
    TooLarge,
}

// Numbers are typed in decimal.
pub const BASE: u64 = 10;

// One digit more, and of what is above the most only that it is.
fn grown(value: u64, b: u8, most: u64) -> u64
    requires { (value < 2 ^ 33) × (most < 2 ^ 32) × (is_digit b ≡ true) }
    ensures { result ≡ capped most (value * 10 + (b - 48)) }
{
    let v = value * BASE + u64::from(b - b'0');
    v.min(most + 1)
}

// The number that a text says, up to the most that is allowed.
pub fn number(text: &[u8], most: u32) -> Result<u64, AmountError>
    ensures { result ≡ amount_of most text.now }
{
    if text.len() == 0 {
        return Err(AmountError::NoNumber);
    }
    let limit = u64::from(most);
    let mut value: u64 = 0;
    for b in text {
        if !b.is_ascii_digit() {
            return Err(AmountError::NoNumber);
        }
        value = grown(value, *b, limit);
    }
    if limit < value {
        return Err(AmountError::TooLarge);
    }
    Ok(value)
}

// ---- Words.

// Words as hexadecimal text or raw, or numbers of a byte in decimal, each with a comma behind it.
#[derive(Clone, Copy)]
pub enum Spelling {
    Hex,
    Raw,
    Decimal,
}

// Where a byte of a text stands; both are counted from 1.
#[derive(Clone, Copy)]
pub struct Place {
    pub line: u64,
    pub column: u64,
}

impl Place {
    fn later(x: u64) -> u64
        ensures { result ≡ later x }
    {
        x.saturating_add(1)
    }

    fn past(self, b: u8) -> Place
        ensures { result ≡ past b self }
    {
        if b == b'\n' {
            return Place {
                line: Place::later(self.line),
                column: 1,
            };
        }
        Place {
            line: self.line,
            column: Place::later(self.column),
        }
    }
}

// What can be wrong with words.
#[derive(Clone, Copy, PartialEq, Eq)]
pub enum Trouble {
    NoDigit,
    FewDigits,
    ManyDigits,
    ManyWords,
    NotWhole,
}

// What is known after some bytes: how many words there are, what there is of the next, and what is wrong.
#[derive(Clone, Copy)]
pub struct Taken {
    pub count: u64,
    pub value: u64,
    pub digits: u64,
    pub place: Place,
    pub comment: bool,
    pub trouble: Option<Trouble>,
}

fn is_white(b: u8) -> bool
    ensures { result ≡ is_white b }
{
    matches!(b, b' ' | b'\t'..=b'\r')
}

// What a hexadecimal digit is worth; nothing where it is none.
fn hex_digit(b: u8) -> Option<u64>
    ensures { result ≡ hex_digit b }
{
    match b {
        b'0'..=b'9' => Some(u64::from(b - b'0')),
        b'a'..=b'f' => Some(u64::from(b - (b'a' - 10))),
        b'A'..=b'F' => Some(u64::from(b - (b'A' - 10))),
        _ => None,
    }
}

impl Taken {
    // The values that a digit can have.
    pub const HEX: u64 = 16;

    // The values that a word can have before its last digit.
    pub const HEX_SPAN: u64 = 1 << 60;

    pub const RAW_SPAN: u64 = 1 << 56;

    // The digits of a word.
    pub const WORD_DIGITS: u64 = 16;

    pub fn start() -> Taken
        ensures { result ≡ start }
    {
        let place = Place { line: 1, column: 1 };
        Taken {
            count: 0,
            value: 0,
            digits: 0,
            place,
            comment: false,
            trouble: None,
        }
    }

    fn troubled(mut self, trouble: Trouble) -> Taken
        ensures { result ≡ troubled trouble self }
    {
        self.trouble = Some(trouble);
        self
    }

    fn skipped(self, place: Place, comment: bool, digits: u64) -> Taken
        ensures { result ≡ skipped place comment digits self }
    {
        Taken {
            count: self.count,
            value: self.value,
            digits,
            place,
            comment,
            trouble: None,
        }
    }

    fn onward(count: u64, value: u64, digits: u64, place: Place) -> Taken
        ensures { result ≡ onward count value digits place }
    {
        Taken {
            count,
            value,
            digits,
            place,
            comment: false,
            trouble: None,
        }
    }

    fn is_part(self) -> bool
        ensures { result ≡ is_part self }
    {
        (self.digits != 0) & (self.digits < Taken::WORD_DIGITS)
    }

    // A word of fewer digits is none.
    fn parted_by(self, b: u8) -> Taken
        ensures { result ≡ parted_by b self }
    {
        if self.is_part() {
            return self.troubled(Trouble::FewDigits);
        }
        let place = self.place;
        self.skipped(place.past(b), b == b'#', 0)
    }

    // One digit more, of so many that it can be.
    fn grown(self, span: u64, base: u64, d: u64) -> u64
        requires { CanGrow span base d }
        ensures { result ≡ grown span base d self }
    {
        if self.digits == 0 {
            return d;
        }
        let kept = self.value % span;
        kept * base + d
    }

    // Nor is a word of more digits one; and there is room for so many.
    fn digit_on(self, room: u64, b: u8, d: u64) -> Taken
        requires { d < 16 }
        ensures { result ≡ digit_on room b d self }
    {
        let digits = self.digits;
        let count = self.count;
        let place = self.place;
        if Taken::WORD_DIGITS <= digits {
            return self.troubled(Trouble::ManyDigits);
        }
        let value = self.grown(Taken::HEX_SPAN, Taken::HEX, d);
        if digits + 1 < Taken::WORD_DIGITS {
            return Taken::onward(count, value, digits + 1, place.past(b));
        }
        if room <= count {
            return self.troubled(Trouble::ManyWords);
        }
        Taken::onward(count + 1, value, Taken::WORD_DIGITS, place.past(b))
    }

    // One byte of a text.
    fn text_on(self, room: u64, b: u8) -> Taken
        ensures { result ≡ text_on room b self }
    {
        let place = self.place;
        if self.comment {
            return self.skipped(place.past(b), b != b'\n', self.digits);
        }
        if is_white(b) | (b == b'#') {
            return self.parted_by(b);
        }
        match hex_digit(b) {
            Some(d) => self.digit_on(room, b, d),
            None => self.troubled(Trouble::NoDigit),
        }
    }

    // One raw byte.
    fn raw_on(self, room: u64, b: u8) -> Taken
        ensures { result ≡ raw_on room b self }
    {
        let digits = self.digits;
        let count = self.count;
        let place = self.place;
        let value = self.grown(
            Taken::RAW_SPAN,
            Instruction::BYTE_SPAN,
            Instruction::wide(b),
        );
        if digits < Instruction::BYTES - 1 {
            return Taken::onward(count, value, digits + 1, place);
        }
        if room <= count {
            return self.troubled(Trouble::ManyWords);
        }
        Taken::onward(count + 1, value, 0, place)
    }

    // A number of no digits is none; and there is room for so many.
    fn closed_on(self, room: u64, b: u8) -> Taken
        ensures { result ≡ closed_on room b self }
    {
        let count = self.count;
        let place = self.place;
        if self.digits == 0 {
            return self.troubled(Trouble::FewDigits);
        }
        if room <= count {
            return self.troubled(Trouble::ManyWords);
        }
        Taken::onward(count + 1, self.value, 0, place.past(b))
    }

    // Nor is one a number that no byte has.
    fn decimal_digit_on(self, b: u8) -> Taken
        requires { is_digit b ≡ true }
        ensures { result ≡ decimal_digit_on b self }
    {
        let place = self.place;
        let value = self.grown(Instruction::BYTE_SPAN, BASE, u64::from(b - b'0'));
        if Instruction::BYTE_SPAN <= value {
            return self.troubled(Trouble::ManyDigits);
        }
        Taken::onward(self.count, value, 1, place.past(b))
    }

    // One byte of decimal numbers.
    fn decimal_on(self, room: u64, b: u8) -> Taken
        ensures { result ≡ decimal_on room b self }
    {
        match b {
            b',' => self.closed_on(room, b),
            b'0'..=b'9' => self.decimal_digit_on(b),
            _ => self.troubled(Trouble::NoDigit),
        }
    }

    // One byte; after trouble nothing is read any more.
    fn byte_on(self, spelling: Spelling, room: u64, b: u8) -> Taken
        ensures { result ≡ byte_on spelling room b self }
    {
        if self.trouble.is_some() {
            return self;
        }
        match spelling {
            Spelling::Hex => self.text_on(room, b),
            Spelling::Raw => self.raw_on(room, b),
            Spelling::Decimal => self.decimal_on(room, b),
        }
    }

    // What is wrong when nothing more comes; nothing where all is well.
    pub fn trouble_in(self, spelling: Spelling) -> Option<Trouble>
        ensures { result ≡ trouble_of spelling self }
    {
        if self.trouble.is_some() {
            return self.trouble;
        }
        match spelling {
            Spelling::Hex => self.is_part().then_some(Trouble::FewDigits),
            Spelling::Raw => (self.digits != 0).then_some(Trouble::NotWhole),
            Spelling::Decimal => (self.digits != 0).then_some(Trouble::NotWhole),
        }
    }
}

// One byte, and the word that it made whole.
fn take_byte(words: &mut [u64], s: Taken, spelling: Spelling, b: u8) -> Taken
    ensures { TakesOne spelling s b words.old words.new result }
{
    let count = s.count;
    let next = s.byte_on(spelling, words.len() as u64, b);
    if count < next.count {
        words[count as usize] = next.value;
    }
    next
}

// The words of some bytes go where those before them end. Pieces of an input are taken one after the other.
pub fn take(words: &mut [u64], s: Taken, spelling: Spelling, text: &[u8]) -> Taken
    ensures { Takes spelling s text.now words.old words.new result }
{
    let mut at = s;
    for b in text {
        at = take_byte(words, at, spelling, *b);
    }
    at
}

// A word as raw bytes, most significant first.
pub fn raw(word: u64) -> [u8; Instruction::BYTES as usize]
    ensures { result ≡ raw_bytes word }
{
    word.to_be_bytes()
}
