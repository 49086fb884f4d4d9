// What the fields of a head say of its body.
ghost use Rattle.std.specs.Prelude.{◌≡◌, true, length, map, All};
ghost use Rattle.std.specs.Char.{is_ascii_digit};
ghost use Rattle.std.specs.List.{list_all};
ghost use Rattle.std.specs.Str.Parse.{digits_value};
ghost use Rattle.std.specs.Str.{str_eq_ignore_ascii_case};
ghost use Rattle.httparse.specs.Spans.{IsHeaderWithin, header_bytes, span_bytes, IsWithin};
ghost use Rattle.desk_requests.specs.Fields.{is_length, number_in, joined_length, body_length, has_field, transfer_encoding};

use httparse::spans::{HeaderSpan, Span};
use text_parts::number_of;

/// How long a body is, as far as the Content-Length fields tell.
#[derive(Clone, Copy, Debug, PartialEq, Eq)]
pub enum BodyLength {
    /// There is no such field.
    Absent,
    /// There are several, or one that is not 1 to 18 digits.
    Malformed,
    /// So many bytes.
    Known(u64),
}

const MOST_DIGITS: usize = 18;

fn are_digits(text: &[u8]) -> bool
    ensures { result ≡ list_all is_ascii_digit text.now }
{
    text.iter().all(|b| b.is_ascii_digit())
}

// Whether the text is 1 to 18 digits.
fn is_length(text: &[u8]) -> bool
    ensures { result ≡ is_length text.now }
{
    match text {
        [] => false,
        [_, rest @ ..] => are_digits(text) && rest.len() < MOST_DIGITS,
    }
}

// The number that the digits write.
fn value_of(digits: &[u8]) -> u64
    requires { is_length digits.now ≡ true }
    ensures { result ≡ digits_value 10 digits.now }
{
    match number_of(digits) {
        Some((number, _)) => number,
        None => 0,
    }
}

// The number, where the text is 1 to 18 digits.
fn number_in(text: &[u8]) -> Option<u64>
    ensures { result ≡ number_in text.now }
{
    if is_length(text) {
        Some(value_of(text))
    } else {
        None
    }
}

// What the fields so far and one more tell.
fn joined_length(so_far: BodyLength, value: &[u8]) -> BodyLength
    ensures { result ≡ joined_length so_far value.now }
{
    match (so_far, number_in(value)) {
        (BodyLength::Absent, Some(number)) => BodyLength::Known(number),
        _ => BodyLength::Malformed,
    }
}

fn is_named(bytes: &[u8], name: Span, wanted: &[u8]) -> bool
    requires { IsWithin (length bytes.now) name }
    ensures { result ≡ str_eq_ignore_ascii_case (span_bytes bytes.now name) wanted.now }
{
    name.of(bytes).eq_ignore_ascii_case(wanted)
}

/// How long the body is.
pub(crate) fn body_length(bytes: &[u8], headers: &[HeaderSpan]) -> BodyLength
    requires { All (IsHeaderWithin (length bytes.now)) headers.now }
    ensures { result ≡ body_length (map (header_bytes bytes.now) headers.now) }
{
    let mut so_far = BodyLength::Absent;
    for header in headers {
        if is_named(bytes, header.name, b"content-length") {
            so_far = joined_length(so_far, header.value.of(bytes));
        }
    }
    so_far
}

/// Whether a Transfer-Encoding field is there.
pub(crate) fn has_transfer_encoding(bytes: &[u8], headers: &[HeaderSpan]) -> bool
    requires { All (IsHeaderWithin (length bytes.now)) headers.now }
    ensures { result ≡ has_field transfer_encoding (map (header_bytes bytes.now) headers.now) }
{
    for header in headers {
        if is_named(bytes, header.name, b"transfer-encoding") {
            return true;
        }
    }
    false
}
