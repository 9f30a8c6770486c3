//! Reading from a source without taking more than is asked for.

ghost use Rattle.std.specs.Prelude.{◌≡◌, ◌≤◌, ◌<◌, ◌+◌, [], length};
ghost use Rattle.cg_inputs.specs.Reading.{cut, least_rest, rest_of_put};
ghost use Rattle.cg_session.specs.Taking.{AddsPiece, TakesByte, TakesBytes, TakesLinePiece, TakesPiece, TakesText};

use crate::pieces::{behind, cut};
use cg_base::{Memory, Source};

/// One byte of a source, or why there is none.
#[derive(Clone, Copy)]
pub enum Byte {
    One(u8),
    End,
    Failed,
}

/// What the reading of a line came to.
#[derive(Clone, Copy)]
pub enum TextRead {
    /// The line is whole; its line feed was taken too.
    Whole,
    /// It is whole and says nothing; bytes behind it were taken.
    False,
    /// 101 bytes of it were taken, or some more.
    Long,
    /// The input ended in it.
    Ended,
    /// The limit was reached in it, and one more byte was taken.
    Full,
    /// The source failed in it.
    Failed,
}

/// What came of asking for bytes of a line.
#[derive(Clone, Copy)]
pub enum LinePiece {
    /// They are of the line.
    More,
    /// The last of them is its line feed.
    Whole,
    /// The line feed is among them, and others are behind it.
    Beyond,
    /// The input ended.
    End,
    /// The source failed.
    Failed,
}

/// What the reading of a number of bytes came to.
#[derive(Clone, Copy)]
pub enum BytesRead {
    Whole,
    Ended,
    Full,
    Failed,
}

/// Some bytes of a source, or why there is none.
#[derive(Clone, Copy)]
pub enum Piece {
    More,
    End,
    Failed,
}

fn next_byte<I: Source>(input: &mut I) -> Byte
    ensures { TakesByte result (I.left input.old) (I.left input.new) (I.faults input.old) (I.faults input.new) }
{
    let mut buf = [0u8; 1];
    match input.fill(&mut buf) {
        Ok(0) => Byte::End,
        Ok(_) => Byte::One(buf[0]),
        Err(_) => Byte::Failed,
    }
}

/// At the limit: whether one more byte comes.
fn at_limit<I: Source>(input: &mut I) -> TextRead
    ensures { TakesText (Ok result) 0 [] (I.left input.old) (I.left input.new) (I.faults input.old) (I.faults input.new) }
{
    match next_byte(input) {
        Byte::One(_) => TextRead::Full,
        Byte::End => TextRead::Ended,
        Byte::Failed => TextRead::Failed,
    }
}

/// How many bytes are still to come of a put's line, behind its word.
fn rest_of_put(text: &str) -> usize
    ensures { result ≡ rest_of_put text.now (cut 32 text.now) }
{
    match cut(' ', text) {
        Some((_, digits)) => { if digits.is_empty() { 2 } else { 1 } }
        None => { if text.is_empty() { 4 } else { 3 } }
    }
}

/// How many bytes may be asked for behind these of a line: no more than are at least still to come of it, if it says something.
#[tactic(auto, unfolding(cg_inputs::specs::Reading::least_rest))]
fn least_rest(text: &[u8]) -> usize
    ensures least { result ≤ least_rest text.now }
    ensures some { 0 < result }
    ensures few { result ≤ 4 }
{
    if text.len() < 4 {
        return 4 - text.len();
    }
    match str::from_utf8(text) {
        Ok(text) => match behind("put ", text) {
            Some(rest) => rest_of_put(rest),
            None => 1,
        },
        Err(_) => 1,
    }
}

/// How many bytes are asked for behind these of a line, of which `room` bytes count.
fn ask_for(text: &[u8], room: usize) -> usize
    requires { length text.now < room }
    ensures least { result ≤ least_rest text.now }
    ensures some { 0 < result }
    ensures few { result ≤ 4 }
    ensures fits { length text.now + result ≤ room }
{
    least_rest(text).min(room - text.len())
}

/// Appends bytes of a line up to its line feed.
fn add_piece(piece: &[u8], text: &mut Vec<u8>) -> Result<LinePiece, Memory>
    requires { 0 < length piece.now }
    ensures { AddsPiece result piece.now text.old.items text.new.items }
{
    for (place, byte) in piece.iter().enumerate() {
        if *byte == 10 {
            return Ok(if place + 1 == piece.len() {
                LinePiece::Whole
            } else {
                LinePiece::Beyond
            });
        }
        text.push(*byte)?;
    }
    Ok(LinePiece::More)
}

/// Appends the next bytes of a line, of which `ask` are asked for.
fn next_of_line<I: Source>(
    input: &mut I,
    ask: usize,
    text: &mut Vec<u8>,
) -> Result<LinePiece, Memory>
    requires some { 0 < ask }
    requires few { ask ≤ 4 }
    ensures { TakesLinePiece result ask text.old.items text.new.items (I.left input.old) (I.left input.new) (I.faults input.old) (I.faults input.new) }
{
    let mut buf = [0u8; 4];
    match input.fill(&mut buf[..ask]) {
        Ok(0) => Ok(LinePiece::End),
        Ok(n) => add_piece(&buf[..n], text),
        Err(_) => Ok(LinePiece::Failed),
    }
}

/// Reads a line into `text`, at most `room` bytes of it, up to its line feed or until it is too long.
pub fn read_text<I: Source>(
    input: &mut I,
    room: usize,
    text: &mut Vec<u8>,
) -> Result<TextRead, Memory>
    requires { text.old.items ≡ [] }
    ensures { TakesText result room text.new.items (I.left input.old) (I.left input.new) (I.faults input.old) (I.faults input.new) }
{
    while text.len() <= 100 {
        if text.len() == room {
            return Ok(at_limit(input));
        }
        let ask = ask_for(text, room);
        match next_of_line(input, ask, text)? {
            LinePiece::More => {}
            LinePiece::Whole => return Ok(TextRead::Whole),
            LinePiece::Beyond => return Ok(TextRead::False),
            LinePiece::End => return Ok(TextRead::Ended),
            LinePiece::Failed => return Ok(TextRead::Failed),
        }
    }
    Ok(TextRead::Long)
}

/// Appends the next bytes, at most as many as `buf` has.
fn next_piece<I: Source>(
    input: &mut I,
    buf: &mut [u8],
    bytes: &mut Vec<u8>,
) -> Result<Piece, Memory>
    requires { 0 < length buf.old }
    ensures { TakesPiece result (length buf.old) bytes.old.items bytes.new.items (I.left input.old) (I.left input.new) (I.faults input.old) (I.faults input.new) }
{
    match input.fill(buf) {
        Ok(0) => Ok(Piece::End),
        Ok(n) => {
            bytes.extend_from_slice(&buf[..n])?;
            Ok(Piece::More)
        }
        Err(_) => Ok(Piece::Failed),
    }
}

/// At the limit: whether one more byte comes.
fn bytes_at_limit<I: Source>(input: &mut I) -> BytesRead
    ensures { TakesBytes (Ok result) 1 0 [] (I.left input.old) (I.left input.new) (I.faults input.old) (I.faults input.new) }
{
    match next_byte(input) {
        Byte::One(_) => BytesRead::Full,
        Byte::End => BytesRead::Ended,
        Byte::Failed => BytesRead::Failed,
    }
}

/// How many bytes are asked for behind so many of `most`.
fn ask_for_bytes(have: usize, most: usize) -> usize
    requires { have < most }
    ensures some { 0 < result }
    ensures few { result ≤ 4096 }
    ensures fits { have + result ≤ most }
{
    (most - have).min(4096)
}

/// Reads `count` bytes, of which at most `room`.
pub fn read_bytes<I: Source>(
    input: &mut I,
    count: usize,
    room: usize,
    bytes: &mut Vec<u8>,
) -> Result<BytesRead, Memory>
    requires { bytes.old.items ≡ [] }
    ensures { TakesBytes result count room bytes.new.items (I.left input.old) (I.left input.new) (I.faults input.old) (I.faults input.new) }
{
    let mut buf = [0u8; 4096];
    let most = count.min(room);
    'pieces: while bytes.len() < most {
        let ask = ask_for_bytes(bytes.len(), most);
        match next_piece(input, &mut buf[..ask], bytes)? {
            Piece::More => {}
            Piece::End => return Ok(BytesRead::Ended),
            Piece::Failed => return Ok(BytesRead::Failed),
        }
    }
    if most == count {
        return Ok(BytesRead::Whole);
    }
    Ok(bytes_at_limit(input))
}
