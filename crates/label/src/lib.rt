// Labels of a listing: their shape, a label packed into two numbers, and where one stands first among many.
// The table that finds it carries no promise: a last look at every label proves that it finds them all.
#![tactic(auto)]

ghost use Rattle.std.specs.Prelude.{◌≡◌, ◌≤◌, length};
ghost use Rattle.std.specs.Char.{is_ascii_alphanumeric};
ghost use Rattle.std.specs.List.{list_all};
ghost use Rattle.label.specs.Label.{label_size, is_label};
ghost use Rattle.label.specs.Key.{half, value_of, key_of};

pub mod index;

#[derive(Clone, Copy)]
pub struct Label;

impl Label {
    // Letters or digits of the longest label.
    pub const SIZE: usize = 16;
}

// A label as two numbers.
#[derive(Clone, Copy, PartialEq)]
pub struct Key {
    pub lo: u64,
    pub hi: u64,
}

impl Key {
    // Bytes in each of the two.
    pub const HALF: usize = 8;

    // Values that a byte has.
    pub const BYTE: u64 = 256;
}

fn are_label_bytes(name: &[u8]) -> bool
    ensures { result ≡ list_all is_ascii_alphanumeric name.now }
{
    name.iter().all(|b| b.is_ascii_alphanumeric())
}

// Whether a text is a label.
pub fn is_label(name: &[u8]) -> bool
    ensures { result ≡ is_label name.now }
{
    match name.len() {
        1..=Label::SIZE => are_label_bytes(name),
        _ => false,
    }
}

// At most eight bytes as one number, the first byte lowest.
fn value(name: &[u8]) -> u64
    requires { length name.now ≤ half }
    ensures { result ≡ value_of name.now }
{
    let mut value: u64 = 0;
    for i in (0..name.len()).rev() {
        value = value * Key::BYTE + u64::from(name[i]);
    }
    value
}

// A label's two numbers.
pub fn pack(name: &[u8]) -> Key
    requires { length name.now ≤ label_size }
    ensures { result ≡ key_of name.now }
{
    let low = name.len().min(Key::HALF);
    let lo = value(&name[..low]);
    let hi = value(&name[low..]);
    Key { lo, hi }
}
