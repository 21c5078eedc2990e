// The lines of a script: their words, numbers and bytes in hex (docs/REPLAY.md, "A script"). Words are separated by one space, so that two
// spaces in a row hold an empty word, which is none of anybody's.
#![tactic(auto)]

ghost use Rattle.std.specs.Prelude.{◌≡◌, true, ◌+◌, ◌*◌, ◌/◌, ◌%◌, ◌≤◌, ◌<◌, min, length, take, ltb, option_map, IfSome, OnOk};
ghost use Rattle.std.specs.Io.KnownBytes.{Appends};
ghost use Rattle.io.specs.Counts.{IsPrefixLen};
ghost use Rattle.ground.specs.Bytes.{laid};
ghost use Rattle.script.specs.Words.{is_passed, before as Words·before, same as Words·same, part_from, line_from, word_from, Reads};
ghost use Rattle.script.specs.Numbers.{worth_of, field_at, number_at};
ghost use Rattle.script.specs.Hex.{nibble as Hex·nibble, all_hex, is_hex, hex_bytes, bytes_count, bytes_laid, glyph as Hex·glyph, spelled, spellable, counted};
ghost use Rattle.script.specs.Answers.{refused};

use std::io;
use std::io::Write;

// A field that takes any word of sixty-four bits.
pub const ANY: u64 = u64::MAX;

// How many bytes of a script are played; what follows them is not read.
pub const LONGEST: usize = 1_048_576;

// A number, cut to what the text has.
pub fn within(n: usize, text: &[u8]) -> usize
    ensures { (result ≡ min n (length text.now)) × IsPrefixLen result text.now }
{
    n.min(text.len())
}

// Whether a line is passed over: an empty one, and one that begins with #.
#[tactic(auto, unfolding(crate::specs::Words::is_passed))]
pub fn is_passed(line: &[u8]) -> bool
    ensures { result ≡ is_passed line.now }
{
    matches!(line, [] | [b'#', ..])
}

// How many bytes stand before the first of this value; all of them where there is none.
pub fn before(text: &[u8], mark: u8) -> usize
    ensures { (result ≡ Words·before mark text.now) × IsPrefixLen result text.now }
{
    text.iter().position(|b| *b == mark).unwrap_or(text.len())
}

// Whether two words are one.
#[tactic(auto, using(crate::proofs::Words::same_told))]
pub fn same(a: &[u8], b: &[u8]) -> bool
    ensures { result ≡ Words·same a.now b.now }
{
    a == b
}

// The part of a text that begins at a place and ends at the next of this mark, and where the part behind it begins.
#[tactic(auto, using(crate::proofs::Words::no_part, crate::proofs::Words::part_there))]
fn part_at(mark: u8, text: &[u8], at: usize) -> Option<(&[u8], usize)>
    ensures value { option_map (λ p. (p.0.now, p.1)) result ≡ part_from mark text.now at }
    ensures next { IfSome result (λ p. (at < p.1) × (p.1 ≤ length text.now + 1)) }
{
    let rest = text.get(at..)?;
    let n = before(rest, mark);
    Some((&rest[..n], at + n + 1))
}

// The line that begins at a place of a script, and where the next one begins.
pub fn line_at(script: &[u8], at: usize) -> Option<(&[u8], usize)>
    ensures value { option_map (λ l. (l.0.now, l.1)) result ≡ line_from script.now at }
    ensures next { IfSome result (λ l. (at < l.1) × (l.1 ≤ length script.now + 1)) }
{
    part_at(b'\n', script, at)
}

// The word that begins at a place of a line, and where the next one begins.
fn word_at(line: &[u8], at: usize) -> Option<(&[u8], usize)>
    ensures value { option_map (λ w. (w.0.now, w.1)) result ≡ word_from line.now at }
    ensures next { IfSome result (λ w. at < w.1) }
{
    part_at(b' ', line, at)
}

// The number that a word is: digits only, at least one.
fn number(word: &[u8]) -> Option<u64>
    ensures { result ≡ worth_of word.now }
{
    if word.is_empty() {
        return None;
    }
    let mut n = 0u64;
    for b in word {
        if !b.is_ascii_digit() {
            return None;
        }
        n = n.checked_mul(10)?.checked_add(u64::from(*b - b'0'))?;
    }
    Some(n)
}

// The number at the word that begins here, where it is one of at most this much, and where the next word begins, which it tells of other words too.
pub fn field_at(line: &[u8], at: usize, most: u64) -> (Option<u64>, usize)
    ensures value { result ≡ field_at line.now at most }
    ensures most { IfSome result.0 (λ n. (n ≤ most) × (at < result.1)) }
    ensures next { at ≤ length line.now → at < result.1 }
{
    let Some((word, next)) = word_at(line, at) else {
        return (None, at);
    };
    match number(word) {
        Some(value) if value <= most => (Some(value), next),
        _ => (None, next),
    }
}

// The byte that a number has which was asked to be one.
pub fn byte(value: u64) -> u8
    ensures { result ≡ value % 256 }
{
    (value % 256) as u8
}

// What a hex digit is worth; 16 where it is none. A number and no Option, and asked of all digits with no way out of the loop, so that the compiler
// asks without a jump: reading random digits takes 2.4 times the time by an Option, 3.3 times by the library's `to_digit` and `is_ascii_hexdigit`.
fn nibble(b: u8) -> u8
    ensures { result ≡ Hex·nibble b }
{
    match b {
        b'0'..=b'9' => b - b'0',
        b'A'..=b'F' => b - b'A' + 10,
        b'a'..=b'f' => b - b'a' + 10,
        _ => 16,
    }
}

// Whether every byte of a word is a hex digit.
#[tactic(auto, using(ground::proofs::Loops::loops))]
fn all_hex(word: &[u8]) -> bool
    ensures { result ≡ all_hex word.now }
{
    let mut ok = true;
    for b in word {
        ok &= nibble(*b) < 16;
    }
    ok
}

// Whether a word is pairs of hex digits: one at least, and no more than there is room for.
#[tactic(auto, unfolding(crate::specs::Hex::is_hex))]
fn is_hex(word: &[u8], room: usize) -> bool
    ensures { result ≡ is_hex room word.now }
{
    let n = word.len();
    n % 2 == 0 && 0 < n && n / 2 <= room && all_hex(word)
}

// Lays the bytes that pairs of hex digits stand for at the front of out.
#[tactic(auto, using(crate::proofs::Hex::pair_small, crate::proofs::Hex::pair_laid), unfolding(crate::specs::Hex::pair_at))]
fn lay_hex(word: &[u8], out: &mut [u8])
    requires { (all_hex word.now ≡ true) × (length word.now / 2 ≤ length out.old) }
    ensures { out.new ≡ laid (hex_bytes word.now) out.old }
{
    // By index: that a pair is worth less than 256 is known of its places in the word.
    for i in 0..word.len() / 2 {
        let high = nibble(word[2 * i]);
        let low = nibble(word[2 * i + 1]);
        out[i] = high * 16 + low;
    }
}

// Reads the bytes from a place of the line on into out, and counts them: none where the line ends before it. Where they are no bytes in hex,
// or more than there is room for, no byte of out changes.
pub fn bytes_from(line: &[u8], at: usize, out: &mut [u8]) -> Option<usize>
    ensures value { result ≡ bytes_count (length out.old) line.now at }
    ensures bytes { out.new ≡ bytes_laid line.now at out.old }
    ensures prefix_len { IfSome result (λ n. IsPrefixLen n out.new) }
{
    let Some(word) = line.get(at..) else {
        return Some(0);
    };
    if !is_hex(word, out.len()) {
        return None;
    }
    lay_hex(word, out);
    Some(word.len() / 2)
}

// The hex digit of a number below 16.
#[tactic(auto, unfolding(crate::specs::Hex::glyph, ground::specs::Choose::choose))]
fn glyph(n: u8) -> u8
    requires { n < 16 }
    ensures { result ≡ Hex·glyph n }
{
    if n < 10 { b'0' + n } else { b'A' + n - 10 }
}

// Spells bytes in hex at the front of the text, as many as there is room for, and counts the digits.
pub fn spell(bytes: &[u8], text: &mut [u8]) -> usize
    ensures value { (result ≡ 2 * spellable bytes.now (length text.old)) × (text.new ≡ laid (spelled (take (spellable bytes.now (length text.old)) bytes.now)) text.old) }
    ensures prefix_len { IsPrefixLen result text.new }
{
    let n = bytes.len().min(text.len() / 2);
    // Over `chunks_exact_mut(2)` zipped with the bytes the proof did not close: that the text is spelled at the end (`returns-clause-value`).
    for (i, b) in bytes[..n].iter().enumerate() {
        text[2 * i] = glyph(*b / 16);
        text[2 * i + 1] = glyph(*b % 16);
    }
    2 * n
}

// Writes how many bytes there are, and the first 1,024 of them in hex behind a space, where there are any.
pub fn write_counted<W: Write>(to: &mut W, bytes: &[u8]) -> io::Result<()>
    ensures { OnOk result (Appends (W.contents to.old) (W.contents to.new) (counted bytes.now)) }
{
    write!(to, "{}", bytes.len())?;
    if bytes.is_empty() {
        return Ok(());
    }
    let mut text = [0u8; 2048];
    let n = spell(bytes, &mut text);
    to.write_all(b" ")?;
    to.write_all(&text[..n])
}

// Writes the line of a refusal, which has this number.
pub fn write_refused<W: Write>(to: &mut W, number: u8) -> io::Result<()>
    ensures { OnOk result (Appends (W.contents to.old) (W.contents to.new) (refused number)) }
{
    writeln!(to, "refuse {number}")
}

// A line that is read word by word: where the next word begins; past the line's end there is none.
#[derive(Clone, Copy)]
pub struct Line<'a> {
    pub text: &'a [u8],
    pub at: usize,
}

// What is read is passed, and where there is nothing to read the line stays where it stands.
impl<'a> Line<'a> {
    // The next word.
    pub fn word(&mut self) -> Option<&'a [u8]>
        ensures { Reads (word_from self.old.text.now self.old.at) self.old self.new (option_map (λ w. w.now) result) }
    {
        let (word, next) = word_at(self.text, self.at)?;
        self.at = next;
        Some(word)
    }

    // The number that the next word is, where it is at most this one.
    pub fn number(&mut self, most: u64) -> Option<u64>
        ensures value { Reads (number_at self.old.text.now self.old.at most) self.old self.new result }
        ensures most { IfSome result (λ n. n ≤ most) }
        ensures onward { IfSome result (λ _. self.old.at < self.new.at) }
    {
        let (value, next) = field_at(self.text, self.at, most);
        let value = value?;
        self.at = next;
        Some(value)
    }

    // The byte that the next word is.
    pub fn byte(&mut self) -> Option<u8>
        ensures value { Reads (number_at self.old.text.now self.old.at 255) self.old self.new result }
        ensures onward { IfSome result (λ _. self.old.at < self.new.at) }
    {
        let value = self.number(255)?;
        Some(byte(value))
    }

    // The room for output that the next word asks for, in bytes.
    pub fn room(&mut self) -> Option<usize>
        ensures value { Reads (number_at self.old.text.now self.old.at 1024) self.old self.new result }
        ensures most { IfSome result (λ n. n ≤ 1024) }
        ensures onward { IfSome result (λ _. self.old.at < self.new.at) }
    {
        let room = self.number(1024)?;
        Some(room as usize)
    }

    // Whether no word is left.
    pub fn is_over(&self) -> bool
        ensures { result ≡ ltb (length self.now.text.now) self.now.at }
    {
        self.text.len() < self.at
    }
}
