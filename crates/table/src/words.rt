// The words of the table: packing and unpacking.
ghost use Rattle.std.specs.Prelude.{◌≡◌, ◌%◌};
ghost use Rattle.table.specs.Words.{shared_ck, state_word, current_of, kept_of, mark_word, phase_of, number_of, mark_form, size_word, nodes_of, items_of, frames_of, size_form};

// The codes of a current place.
pub const INVALID: u8 = 0;

pub const SHARED: u8 = 1;

pub const OWNER: u8 = 2;

pub const MODIFIED: u8 = 3;

pub const SHARED_CK1: u8 = 4;

pub const SHARED_CK2: u8 = 5;

pub const PRECOMMIT1: u8 = 6;

pub const PRECOMMIT2: u8 = 7;

// The Shared-CK of a number; a number has two bits, as a kept place.
pub fn shared_ck(number: u8) -> u8
    ensures { result ≡ shared_ck (number % 4) }
{
    3 + number % 4
}

// The current place of a state word.
pub fn current_of(w: u64) -> u8
    ensures { result ≡ current_of w }
{
    (w / 0x1000_0000_0000_0000) as u8
}

// The kept place of a state word.
pub fn kept_of(w: u64) -> u8
    ensures { result ≡ kept_of w }
{
    (w / 0x400_0000_0000_0000 % 4) as u8
}

// The state word of a current and a kept place.
pub fn state_word(current: u8, kept: u8) -> u64
    ensures { result ≡ state_word current kept }
{
    (current as u64) % 16 * 0x1000_0000_0000_0000 + (kept as u64) % 4 * 0x400_0000_0000_0000
}

// The mark of a live node.
pub fn mark_word(phase: u8, number: u32) -> u64
    ensures { result ≡ mark_word phase number }
{
    0x8000_0000_0000_0000
        + (phase as u64) % 4 * 0x2000_0000_0000_0000
        + (number as u64) % 0x1_0000_0000 * 0x2000_0000
}

// The phase of a mark.
pub fn phase_of(w: u64) -> u8
    ensures { result ≡ phase_of w }
{
    (w / 0x2000_0000_0000_0000 % 4) as u8
}

// The point number of a mark.
pub fn number_of(w: u64) -> u32
    ensures { result ≡ number_of w }
{
    (w / 0x2000_0000 % 0x1_0000_0000) as u32
}

// Whether a word has the form of a mark.
pub fn mark_form(w: u64) -> bool
    ensures { result ≡ mark_form w }
{
    (w == 0)
        | ((w / 0x8000_0000_0000_0000 == 1)
            & ((w / 0x2000_0000_0000_0000 % 4 < 3) & (w % 0x2000_0000 == 0)))
}

// Word 0 of a table.
pub fn size_word(nodes: u8, items: u16, frames: u16) -> u64
    ensures { result ≡ size_word nodes items frames }
{
    (nodes as u64) % 32 * 0x80_0000_0000_0000
        + (items as u64) % 512 * 0x4000_0000_0000
        + (frames as u64) % 1024 * 0x10_0000_0000
}

// Whether word 0 has its form.
pub fn size_form(w: u64) -> bool
    ensures { result ≡ size_form w }
{
    (w / 0x1000_0000_0000_0000 == 0) & (w % 0x10_0000_0000 == 0)
}

// N of word 0.
pub fn nodes_of(w: u64) -> u64
    ensures { result ≡ nodes_of w }
{
    w / 0x80_0000_0000_0000 % 32
}

// M of word 0.
pub fn items_of(w: u64) -> u64
    ensures { result ≡ items_of w }
{
    w / 0x4000_0000_0000 % 512
}

// F of word 0.
pub fn frames_of(w: u64) -> u64
    ensures { result ≡ frames_of w }
{
    w / 0x10_0000_0000 % 1024
}
