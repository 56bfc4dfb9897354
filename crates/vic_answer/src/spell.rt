//! The command `spell`: a frame from the words with which `frame` describes it.

ghost use Rattle.std.specs.Prelude.{◌≡◌, ◌<◌, ◌≤◌, ◌++◌, map, length, codes, string_bytes, IfOk};
ghost use Rattle.hex.specs.Hex.{encode_upper};
ghost use Rattle.vic_frame.specs.Requests.{IsValid};
ghost use Rattle.vic_answer.specs.SpellText as spec;
ghost use Rattle.vic_answer.specs.Runs.{Writes};

use crate::lines::refused_word;
use crate::output::write_and_flush;
use crate::status::{RunFault, Status};
use crate::text::{ShortText, push_str};
use arrayvec::ArrayVec;
use vic_frame::{
    MAX_MASK_LEN, MAX_MASK_LEN_OF_SIXTEEN, Mask, Request, Response, Uid, write_request,
    write_response,
};
use vic_log::{Sink, push_hex};
use vic_text::{hex_number_in, number_in, value_in};

/// The greatest logical link of a request.
pub const MAX_LINK: u8 = 3;

/// Why words don't spell a frame.
#[derive(Clone, Copy, Debug, Drop, PartialEq, Eq)]
enum SpellFault {
    /// The words, but for the values, aren't those of `frame`, or their number isn't; or the first
    /// value that doesn't fit is none that `frame` writes there.
    Words,
    /// That value is a number below 2^64, but a link above 3, the length of a mask longer than its
    /// request allows, or the value of a mask with bits above its length.
    Range,
}

impl SpellFault {
    /// Its name.
    fn name(&self) -> &'static str
        ensures name { result.now ≡ spec.spell_fault_name self.now }
        ensures short { length result.now ≤ 5 }
    {
        match self {
            SpellFault::Words => "Words",
            SpellFault::Range => "Range",
        }
    }
}

/// The frame that words describe.
#[derive(Clone, Copy)]
enum Frame {
    Request(Request),
    Response(Response),
}

/// Writes, in hex digits, the frame that `frame` describes by these words, or why there is none,
/// and flushes. It allocates no memory.
pub fn run_spell<W: Sink>(words: &[String], sink: &mut W) -> Result<Status, RunFault>
    ensures status { IfOk result (λ s. s ≡ spec.spell_status (map string_bytes words.now)) }
    ensures written { Writes W.Sink
        sink.old sink.new (spec.spell_text (map string_bytes words.now)) result }
{
    let (text, status) = text_and_status(words);
    write_and_flush(sink, text.as_slice())?;
    Ok(status)
}

/// The text and the status for some words.
fn text_and_status(words: &[String]) -> (ShortText, Status)
    ensures text { result.0.items ≡ spec.spell_text (map string_bytes words.now) }
    ensures status { result.1 ≡ spec.spell_status (map string_bytes words.now) }
{
    match words_reading(words) {
        Ok(what) => (frame_line(&what), Status::Whole),
        Err(fault) => (refused_word(fault.name()), Status::Refused),
    }
}

/// The line of a frame, in hex digits.
fn frame_line(what: &Frame) -> ShortText
    requires { spec.IsSendable what.now }
    ensures { result.items ≡ encode_upper (spec.frame_of what.now) ++ codes "\n" }
{
    let mut text = ArrayVec::new();
    match what {
        Frame::Request(request) => push_hex(&mut text, write_request(request).as_slice()),
        Frame::Response(reply) => push_hex(&mut text, &write_response(reply)),
    }
    push_str(&mut text, "\n");
    text
}

/// What words say, or why they aren't a frame.
fn words_reading(words: &[String]) -> Result<Frame, SpellFault>
    ensures said { result ≡ spec.words_reading (map string_bytes words.now) }
    ensures valid { IfOk result spec.IsSendable }
{
    if says_inventory(words) {
        let request = inventory(
            word(words, 3),
            word(words, 5),
            word(words, 7),
            word(words, 8),
        )?;
        Ok(Frame::Request(request))
    } else if says_stay_quiet(words) {
        let request = stay_quiet(word(words, 3), word(words, 5))?;
        Ok(Frame::Request(request))
    } else if says_reply(words) {
        let reply = reply(word(words, 2), word(words, 4), word(words, 6))?;
        Ok(Frame::Response(reply))
    } else {
        Err(SpellFault::Words)
    }
}

/// The word at an index.
fn word(words: &[String], index: usize) -> &str
    requires { index < length words.now }
    ensures { result.now ≡ spec.word (map string_bytes words.now) index }
{
    words[index].as_str()
}

/// Whether these are the words of an Inventory request.
fn says_inventory(words: &[String]) -> bool
    ensures { result ≡ spec.says_inventory (map string_bytes words.now) }
{
    words.len() == 9
        && word(words, 0) == "request"
        && word(words, 1) == "inventory"
        && word(words, 2) == "link"
        && word(words, 4) == "slots"
        && word(words, 6) == "mask"
}

/// Whether these are the words of a Stay Quiet request.
fn says_stay_quiet(words: &[String]) -> bool
    ensures { result ≡ spec.says_stay_quiet (map string_bytes words.now) }
{
    words.len() == 6
        && word(words, 0) == "request"
        && word(words, 1) == "stay-quiet"
        && word(words, 2) == "link"
        && word(words, 4) == "uid"
}

/// Whether these are the words of a reply.
fn says_reply(words: &[String]) -> bool
    ensures { result ≡ spec.says_reply (map string_bytes words.now) }
{
    words.len() == 7
        && word(words, 0) == "response"
        && word(words, 1) == "flags"
        && word(words, 3) == "dsfid"
        && word(words, 5) == "uid"
}

/// An Inventory request from its words.
fn inventory(link: &str, slots: &str, len: &str, value: &str) -> Result<Request, SpellFault>
    ensures said { result ≡ spec.inventory_in link.now slots.now len.now value.now }
    ensures valid { IfOk result IsValid }
{
    let link = number_up_to(MAX_LINK, link)?;
    let sixteen = sixteen_in(slots)?;
    let longest = if sixteen {
        MAX_MASK_LEN_OF_SIXTEEN
    } else {
        MAX_MASK_LEN
    };
    let len = number_up_to(longest, len)?;
    let mask = mask_in(len, value)?;
    Ok(Request::Inventory {
        link,
        sixteen,
        mask,
    })
}

/// A Stay Quiet request from its words.
fn stay_quiet(link: &str, uid: &str) -> Result<Request, SpellFault>
    ensures said { result ≡ spec.stay_quiet_in link.now uid.now }
    ensures valid { IfOk result IsValid }
{
    let link = number_up_to(MAX_LINK, link)?;
    let uid = hex_word(8, uid)?;
    Ok(Request::StayQuiet { link, uid })
}

/// A reply from its words.
fn reply(flags: &str, dsfid: &str, uid: &str) -> Result<Response, SpellFault>
    ensures { result ≡ spec.reply_in flags.now dsfid.now uid.now }
{
    let flags = byte_in(flags)?;
    let dsfid = byte_in(dsfid)?;
    let number = hex_word(8, uid)?;
    let uid = Uid::new(number).ok_or(SpellFault::Words)?;
    Response::new(flags, dsfid, uid).ok_or(SpellFault::Words)
}

/// One slot or sixteen.
fn sixteen_in(word: &str) -> Result<bool, SpellFault>
    ensures { result ≡ spec.sixteen_in word.now }
{
    if word == "1" {
        Ok(false)
    } else if word == "16" {
        Ok(true)
    } else {
        Err(SpellFault::Words)
    }
}

/// A mask of `len` bits, from the word of its value.
fn mask_in(len: u8, word: &str) -> Result<Mask, SpellFault>
    requires { len ≤ MAX_MASK_LEN }
    ensures { result ≡ spec.mask_in len word.now }
{
    let value = value_in(len, word.as_bytes()).ok_or(SpellFault::Words)?;
    Mask::new(len, value).ok_or(SpellFault::Range)
}

/// The number that a word spells in decimal, up to a maximum.
fn number_up_to(most: u8, word: &str) -> Result<u8, SpellFault>
    ensures said { result ≡ spec.number_up_to most word.now }
    ensures most { IfOk result (λ n. n ≤ most) }
{
    let number = number_in(word.as_bytes()).ok_or(SpellFault::Words)?;
    if number <= u64::from(most) {
        Ok(number as u8)
    } else {
        Err(SpellFault::Range)
    }
}

/// The byte that a word spells in upper-case hex digits.
fn byte_in(word: &str) -> Result<u8, SpellFault>
    ensures { result ≡ spec.hex_word 1 word.now }
{
    let number = hex_word(1, word)?;
    Ok(number as u8)
}

/// The number that a word spells as `count` bytes in upper-case hex digits.
fn hex_word(count: usize, word: &str) -> Result<u64, SpellFault>
    requires { count ≤ 8 }
    ensures { result ≡ spec.hex_word count word.now }
{
    hex_number_in(count, word.as_bytes()).ok_or(SpellFault::Words)
}
