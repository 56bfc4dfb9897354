//! A valid request, as a line of a log has it.

ghost use Rattle.std.specs.Prelude.{◌≡◌, ◌≤◌, ◌++◌, OnOk, codes, length};
ghost use Rattle.arrayvec.specs.ArrayVec.{array_vec_len};
ghost use Rattle.hex.specs.Hex.{encode_upper};
ghost use Rattle.vic_frame.specs.Requests.{IsValid, request_spelling};
ghost use Rattle.vic_object.specs.ObjectText as spec;

use arrayvec::ArrayVec;
use std::alloc::AllocError;
use std::marker::Model;
use vic_frame::{MAX_REQUEST_LEN, Request, write_request};
use vic_log::push_hex;
use vic_text::ToJson;

/// How many digits the longest frame of a request has in hex.
const DIGITS: usize = 2 * MAX_REQUEST_LEN;

/// A valid request: one that has a frame.
#[derive(Clone, Copy, Debug, PartialEq, Eq)]
pub struct ValidRequest {
    request: Request,
}

impl Model for ValidRequest {
    ghost use Rattle.vic_frame.specs.declared.request.Request.{Request as RequestValue};
    ghost use Rattle.vic_frame.specs.Requests.{IsValid};

    ghost Value = { RequestValue };

    ghost view = { λ r. r.request };

    ghost invariant = { λ r. IsValid r.request };

    ghost inverse = { λ q. record { request = q } };
}

impl ValidRequest {
    /// A valid request.
    pub(crate) fn new(request: Request) -> ValidRequest
        requires { IsValid request }
        ensures { result ≡ request }
    {
        ValidRequest { request }
    }

    /// The request.
    pub fn request(&self) -> Request
        ensures value { result ≡ self.now }
        ensures valid { IsValid result }
    {
        self.request
    }
}

impl ToJson for ValidRequest {
    ghost json_of = { spec.request_string };

    fn push_json(&self, text: &mut Vec<u8>) -> Result<(), AllocError> {
        let digits = frame_digits(&self.request());
        text.extend_from_slice(b"\"T ")?;
        text.extend_from_slice(digits.as_slice())?;
        text.extend_from_slice(b"\"")
    }
}

/// The frame of a request in hex digits.
fn frame_digits(request: &Request) -> ArrayVec<u8, DIGITS>
    requires { IsValid request.now }
    ensures { result.items ≡ encode_upper (request_spelling request.now) }
{
    let mut digits = ArrayVec::new();
    push_hex(&mut digits, write_request(request).as_slice());
    digits
}
