//! The tokens of a text.

ghost use Rattle.std.specs.Prelude.{◌≡◌, ◌+◌, ◌*◌, ◌<◌, ◌≤◌, ◌^◌, length, take, drop, not, IfOk, IfSome, SomeIff};
ghost use Rattle.std.specs.List.{prefix_len, list_all};
ghost use Rattle.std.specs.Char.{digit_value as value_of_digit};
ghost use Rattle.std.specs.Str.Parse.{AllDigits, digits_value as value_of_digits};
ghost use Rattle.chc_sexpr.specs.Tokens.{is_symbol_byte, is_simple_symbol, is_reserved};
ghost use Rattle.chc_sexpr.specs.Spelling.{is_quotable, stops};
ghost use Rattle.chc_sexpr.specs.Scanning.{is_of, fault_at, front, ended, word_at, symbol_at, keyword_at, quoted_from, step_of, string_from, string_of_found, based_at, sharp_at, numeral_of, fraction, number_of, number_at, token_at, Gives};
ghost use Rattle.chc_sexpr.specs.declared.fault.TextErr.TheVariants as text_err;
ghost use Rattle.chc_sexpr.specs.declared.tree.Tree.TheVariants as tree;

use crate::fault::{Fault, TextErr, TextFault};
use crate::kind::{Kind, is_symbol_byte, run_length};
use crate::tree::Tree;
use chc_sorts::NoMemory;
use chc_source::ByteText;
use std::alloc::Global;

/// A tree that is a token, and how many bytes of the text it takes.
#[derive(Drop)]
pub struct Token {
    pub tree: Tree,
    pub length: usize,
}

/// A fault at a place, about no name.
pub fn fault(alloc: Global, place: u64, fault: Fault) -> TextErr
    ensures { result ≡ text_err.At (fault_at place fault) }
{
    TextErr::At(TextFault {
        place,
        fault,
        name: ByteText::new(alloc),
    })
}

/// Whether all bytes may stand in a symbol without bars.
fn are_symbol_bytes(bytes: &[u8]) -> bool
    ensures { result ≡ list_all is_symbol_byte bytes.now }
{
    for b in bytes {
        if !is_symbol_byte(*b) {
            return false;
        }
    }
    true
}

/// Whether the bytes are a symbol that needs no bars, or a reserved word.
pub fn is_simple_symbol(bytes: &[u8]) -> bool
    ensures { result ≡ is_simple_symbol bytes.now }
{
    match bytes {
        [] => false,
        [first, ..] => !first.is_ascii_digit() && are_symbol_bytes(bytes),
    }
}

/// Whether the bytes are one of the words that are no symbols.
pub fn is_reserved(bytes: &[u8]) -> bool
    ensures { result ≡ is_reserved bytes.now }
{
    matches!(
        bytes,
        b"!" | b"_"
            | b"as"
            | b"let"
            | b"par"
            | b"match"
            | b"exists"
            | b"forall"
            | b"BINARY"
            | b"STRING"
            | b"DECIMAL"
            | b"NUMERAL"
            | b"HEXADECIMAL"
    )
}

/// A text of the bytes.
fn text_of(alloc: Global, bytes: &[u8]) -> Result<ByteText, NoMemory>
    ensures { IfOk result (λ text. text ≡ bytes.now) }
{
    let mut text = ByteText::new(alloc);
    text.extend(bytes)?;
    Ok(text)
}

/// Whether a byte of the kind stands at `at`.
fn goes_on(kind: Kind, bytes: &[u8], at: usize) -> bool
    ensures { result ≡ not (stops (is_of kind) (drop at bytes.now)) }
{
    if at < bytes.len() {
        kind.has(bytes[at])
    } else {
        false
    }
}

/// The token, if no byte of the kind follows it.
fn ended(alloc: Global, tail: Kind, place: u64, rest: &[u8], token: Token) -> Result<Token, TextErr>
    requires fits { place + token.length < 2 ^ 64 }
    ensures { Gives result (ended (is_of tail) place rest.now token) }
{
    if goes_on(tail, rest, token.length) {
        return Err(fault(alloc, place + token.length as u64, Fault::BadByte));
    }
    Ok(token)
}

/// The symbol or reserved word of some bytes.
fn word(place: u64, name: ByteText) -> Tree
    ensures { result ≡ word_at place name }
{
    if is_reserved(name.bytes()) {
        Tree::Word(place, name)
    } else {
        Tree::Symbol(place, name)
    }
}

/// Reads the symbol or reserved word at the front.
fn read_symbol(alloc: Global, place: u64, rest: &[u8]) -> Result<Token, TextErr>
    ensures { Gives result (symbol_at place rest.now) }
{
    let length = run_length(Kind::Symbol, rest);
    let name = text_of(alloc, &rest[..length])?;
    Ok(Token {
        tree: word(place, name),
        length,
    })
}

/// Reads the keyword at the front.
fn read_keyword(alloc: Global, place: u64, rest: &[u8]) -> Result<Token, TextErr>
    requires { 0 < length rest.now }
    ensures { Gives result (keyword_at place rest.now) }
{
    let run = run_length(Kind::Symbol, &rest[1..]);
    if run == 0 {
        return Err(fault(alloc, place, Fault::BadByte));
    }
    let word = text_of(alloc, &rest[..1 + run])?;
    Ok(Token {
        tree: Tree::Keyword(place, word),
        length: 1 + run,
    })
}

/// Reads the quoted symbol whose first bar stands right before `behind`.
fn read_quoted(alloc: Global, place: u64, behind: &[u8]) -> Result<Token, TextErr>
    requires fits { place + (1 + length behind.now) < 2 ^ 64 }
    ensures { Gives result (quoted_from (prefix_len is_quotable behind.now) place behind.now) }
{
    let run = run_length(Kind::Quotable, behind);
    if run >= behind.len() {
        return Err(fault(alloc, place, Fault::OpenQuoted));
    }
    if behind[run] != b'|' {
        return Err(fault(alloc, place + (1 + run as u64), Fault::BadByte));
    }
    let name = text_of(alloc, &behind[..run])?;
    Ok(Token {
        tree: Tree::Symbol(place, name),
        length: run + 2,
    })
}

/// How many bytes the byte of a string at `at` takes: 2 for a doubled quote, and 0 where a quote ends the string.
fn string_step(bytes: &[u8], at: usize) -> usize
    requires { at < length bytes.now }
    ensures step { result ≡ step_of (drop at bytes.now) }
    ensures within { at + result ≤ length bytes.now }
{
    if bytes[at] != b'"' {
        1
    } else if at + 1 < bytes.len() && bytes[at + 1] == b'"' {
        2
    } else {
        0
    }
}

/// The bytes of the string whose first quote stands right before `behind`, and where its last quote ends.
fn string_bytes(alloc: Global, behind: &[u8]) -> Result<Option<(ByteText, usize)>, NoMemory>
    ensures found { IfOk result (λ found. found ≡ string_from behind.now) }
    ensures within { IfOk result (λ found. IfSome found (λ string. string.1 ≤ length behind.now)) }
{
    let mut text = ByteText::new(alloc);
    let mut at = 0;
    while at < behind.len() {
        let step = string_step(behind, at);
        if step == 0 {
            return Ok(Some((text, at + 1)));
        }
        text.push(behind[at])?;
        at += step;
    }
    Ok(None)
}

/// Reads the string whose first quote stands right before `behind`.
fn read_string(alloc: Global, place: u64, behind: &[u8]) -> Result<Token, TextErr>
    ensures { Gives result (string_of_found place (string_from behind.now)) }
{
    match string_bytes(alloc, behind)? {
        Some((text, length)) => Ok(Token {
            tree: Tree::Text(place, text),
            length: 1 + length,
        }),
        None => Err(fault(alloc, place, Fault::OpenString)),
    }
}

/// The first `end` bytes, as a token that is kept as it is written.
fn other(alloc: Global, place: u64, rest: &[u8], end: usize) -> Result<Token, NoMemory>
    requires { end ≤ length rest.now }
    ensures { IfOk result (λ token. token ≡ front (tree.Other place) end rest.now) }
{
    let text = text_of(alloc, &rest[..end])?;
    Ok(Token {
        tree: Tree::Other(place, text),
        length: end,
    })
}

/// Reads the token of a sharp, a letter and digits at the front.
fn read_based(
    alloc: Global,
    digit: Kind,
    tail: Kind,
    place: u64,
    rest: &[u8],
) -> Result<Token, TextErr>
    requires letter { 2 ≤ length rest.now }
    requires fits { place + length rest.now < 2 ^ 64 }
    ensures { Gives result (based_at (is_of digit) (is_of tail) place rest.now) }
{
    let run = run_length(digit, &rest[2..]);
    if run == 0 {
        return Err(fault(alloc, place, Fault::BadByte));
    }
    let token = other(alloc, place, rest, 2 + run)?;
    ended(alloc, tail, place, rest, token)
}

/// Reads the token that begins with a sharp.
fn read_sharp(alloc: Global, place: u64, rest: &[u8]) -> Result<Token, TextErr>
    requires fits { place + length rest.now < 2 ^ 64 }
    ensures { Gives result (sharp_at place rest.now) }
{
    match rest {
        [_, b'x', ..] => read_based(alloc, Kind::Hexadecimal, Kind::Symbol, place, rest),
        [_, b'b', ..] => read_based(alloc, Kind::Binary, Kind::BinaryTail, place, rest),
        _ => Err(fault(alloc, place, Fault::BadByte)),
    }
}

/// The largest number that a numeral may stand for.
const LARGEST: u128 = i128::MAX as u128;

/// The number with one more digit behind its decimal digits, if the byte is a digit and the number stays in range.
fn with_digit(value: u128, b: u8) -> Option<u128>
    requires { value < 2 ^ 127 }
    ensures { SomeIff result ((value_of_digit b < 10) × (value * 10 + value_of_digit b < 2 ^ 127)) (value * 10 + value_of_digit b) }
{
    if !b.is_ascii_digit() || value > LARGEST / 10 {
        return None;
    }
    let longer = value * 10 + u128::from(b - b'0');
    if longer <= LARGEST {
        Some(longer)
    } else {
        None
    }
}

/// The number that decimal digits stand for, if all bytes are digits and it is in range.
fn digits_value(bytes: &[u8]) -> Option<u128>
    ensures { SomeIff result (AllDigits 10 bytes.now × (value_of_digits 10 bytes.now < 2 ^ 127)) (value_of_digits 10 bytes.now) }
{
    let mut value = 0;
    for b in bytes {
        value = with_digit(value, *b)?;
    }
    Some(value)
}

/// Reads the numeral of the first `end` bytes, which are digits.
fn read_numeral(alloc: Global, place: u64, rest: &[u8], end: usize) -> Result<Token, TextErr>
    requires within { end ≤ length rest.now }
    requires digits { AllDigits 10 (take end rest.now) }
    requires fits { place + end < 2 ^ 64 }
    ensures { Gives result (numeral_of end place rest.now) }
{
    match digits_value(&rest[..end]) {
        Some(value) => {
            let tree = Tree::Numeral(place, value as i128);
            let token = Token { tree, length: end };
            ended(alloc, Kind::Symbol, place, rest, token)
        }
        None => Err(fault(alloc, place, Fault::NumeralTooLarge)),
    }
}

/// How many bytes a point and digits at the front take, or 0 where not both are there.
fn fraction_length(bytes: &[u8]) -> usize
    ensures run { result ≡ fraction bytes.now }
    ensures within { result ≤ length bytes.now }
{
    match bytes {
        [b'.', digits @ ..] => match run_length(Kind::Digit, digits) {
            0 => 0,
            run => 1 + run,
        },
        _ => 0,
    }
}

/// Reads the number at the front, of which `whole` digits come first.
fn read_number_of(alloc: Global, place: u64, rest: &[u8], whole: usize) -> Result<Token, TextErr>
    requires within { whole ≤ length rest.now }
    requires digits { AllDigits 10 (take whole rest.now) }
    requires fits { place + length rest.now < 2 ^ 64 }
    ensures { Gives result (number_of (fraction (drop whole rest.now)) whole place rest.now) }
{
    let fraction = fraction_length(&rest[whole..]);
    if fraction == 0 {
        return read_numeral(alloc, place, rest, whole);
    }
    let token = other(alloc, place, rest, whole + fraction)?;
    ended(alloc, Kind::Symbol, place, rest, token)
}

/// Reads the numeral or decimal at the front.
fn read_number(alloc: Global, place: u64, rest: &[u8]) -> Result<Token, TextErr>
    requires some { 0 < length rest.now }
    requires fits { place + length rest.now < 2 ^ 64 }
    ensures { Gives result (number_at place rest.now) }
{
    let whole = run_length(Kind::Digit, rest);
    if whole > 1 && rest[0] == b'0' {
        return Err(fault(alloc, place, Fault::LeadingZero));
    }
    read_number_of(alloc, place, rest, whole)
}

/// Reads the token at the front of `rest`, which stands in the text from `place` on.
pub fn read_token(alloc: Global, place: u64, rest: &[u8]) -> Result<Token, TextErr>
    requires some { 0 < length rest.now }
    requires fits { place + length rest.now < 2 ^ 64 }
    ensures { Gives result (token_at place rest.now) }
{
    let first = rest[0];
    if first.is_ascii_digit() {
        return read_number(alloc, place, rest);
    }
    if is_symbol_byte(first) {
        return read_symbol(alloc, place, rest);
    }
    match first {
        b'|' => read_quoted(alloc, place, &rest[1..]),
        b'"' => read_string(alloc, place, &rest[1..]),
        b':' => read_keyword(alloc, place, rest),
        b'#' => read_sharp(alloc, place, rest),
        _ => Err(fault(alloc, place, Fault::BadByte)),
    }
}
