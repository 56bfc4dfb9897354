//! Uses of `vic_frame`.

ghost use Rattle.std.specs.Prelude.{◌≡◌, Ok};
ghost use Rattle.vic_frame.specs.Requests.{IsValid};

use vic_frame::{FrameFault, Request, read_request, write_request};

/// A request that was written as its frame, and read again: it is the same.
pub fn request_through_its_frame(request: &Request) -> Result<Request, FrameFault>
    requires { IsValid request.now }
    ensures { result ≡ Ok request.now }
{
    read_request(write_request(request).as_slice())
}
